// Couplings: which moves need, and which bar, each other in one step.
// Knows moves only by their numbers, and answers for every number. Knows nothing of steps or plans.
#![tactic(auto)]

ghost use Rattle.std.specs.Prelude.{◌≡◌, IfOk};
ghost use Rattle.model.specs.Line.{Coupling as Relations};
ghost use Rattle.model.specs.Task.{written};
ghost use Rattle.moves.specs.Lists.{literals_of};
ghost use Rattle.task.specs.Views.{task_of};
ghost use Rattle.coupling.specs.Rows.{row, written_by};

use moves::Literals;
use std::alloc::{AllocError, Global};
use task::Task;

// Two relations between move numbers. A question changes nothing.
pub trait Coupling {
    // which moves need which, and which bar which
    ghost relations: { Self → Relations };

    // Does `a` need `b` in its step?
    fn needs(&self, a: u8, b: u8) -> bool
        ensures { result ≡ (relations self.now).needs a b };

    // Does `a` bar `b` from its step?
    fn bars(&self, a: u8, b: u8) -> bool
        ensures { result ≡ (relations self.now).bars a b };
}

// The coupling that a task file writes down: a row of companions for each move. A plain companion is needed, one with
// "not" is barred.
#[derive(Drop)]
pub struct Written {
    rows: Vec<Literals>,
}

impl Coupling for Written {
    ghost relations = { written_by };

    fn needs(&self, a: u8, b: u8) -> bool {
        self.companions(a).plain.contains(b)
    }

    fn bars(&self, a: u8, b: u8) -> bool {
        self.companions(a).negated.contains(b)
    }
}

impl Written {
    fn companions(&self, a: u8) -> Literals
        ensures { literals_of result ≡ row self.now a }
    {
        self.rows
            .get(usize::from(a))
            .copied()
            .unwrap_or(Literals::empty())
    }

    // The coupling of a task.
    pub fn new(heap: Global, task: &Task) -> Result<Written, AllocError>
        ensures { IfOk result (λ w. written_by w ≡ written (task_of task.now)) }
    {
        let rows = (0..task.moves()).map(|a| task.companions(a)).collect(heap)?;
        Ok(Written { rows })
    }
}
