// The record of a step: one operand a station.
ghost use Rattle.std.specs.Prelude.{◌≡◌};
ghost use Rattle.sets.specs.Members.{members};
ghost use Rattle.step.specs.Operands.{move_named as named, operand};
ghost use Rattle.step.specs.Views.{operands_of, moves_of};

use sets::IndexSet;

// The operand of a station without a move.
const NONE: u8 = 0xff;

// The move that an operand names, if it names one.
pub fn move_named(operand: u8) -> Option<u8>
    ensures { result ≡ named operand }
{
    (operand != NONE).then_some(operand)
}

// Sixteen operands, one a station: its move, or 255 for none.
#[derive(Clone, Copy, PartialEq, Eq, Debug)]
pub struct Step {
    operands: [u8; 16],
}

impl Step {
    pub fn new(operands: &[u8; 16]) -> Step
        ensures { operands_of result ≡ operands.now }
    {
        Step {
            operands: *operands,
        }
    }

    // The move of a station, if it has one.
    pub fn move_of(&self, station: u8) -> Option<u8>
        ensures { result ≡ operand (operands_of self.now) station }
    {
        self.operands
            .get(usize::from(station))
            .and_then(|operand| move_named(*operand))
    }

    // The moves that the operands name.
    pub fn moves(&self) -> IndexSet
        ensures { members result ≡ moves_of self.now }
    {
        let mut all = IndexSet::empty();
        for a in &self.operands {
            if *a < 128 {
                all = all.insert(*a);
            }
        }
        all
    }
}
