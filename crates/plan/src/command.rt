// The command that stands at the front of a part of a joint plan, and the part of the file after it.
ghost use Rattle.std.specs.Prelude.{◌≡◌, ◌<◌, length, IfOk};
ghost use Rattle.refusals.specs.Answers.{Asked};
ghost use Rattle.plan.specs.Commands.{first, taken};

use refusals::{Question, Refusal};

// STEP keeps its sixteen operand bytes as a part of the plan file.
#[derive(Clone, Copy, PartialEq, Eq, Debug)]
pub enum JointCommand<'a> {
    Step(&'a [u8; 16]),
}

// `place` is the offset of `rest` in its file.
pub fn next<'a>(rest: &'a [u8], place: usize) -> Result<(JointCommand<'a>, &'a [u8]), Refusal>
    ensures value { taken result ≡ first place rest.now }
    ensures asked { Asked place result }
    ensures shorter { IfOk result (λ p. length p.1.now < length rest.now) }
{
    let refused = Question::Command.at(place);
    let [0x31, tail @ ..] = rest else {
        return Err(refused);
    };
    let (operands, after) = tail.split_first_chunk::<16>().ok_or(refused)?;
    Ok((JointCommand::Step(operands), after))
}
