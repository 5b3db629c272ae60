// A task under a coupling: the questions of a whole step in their order, and the fluents after it.
ghost use Rattle.std.specs.Prelude.{◌≡◌};
ghost use Rattle.model.specs.Joint.{missing as is_missing, barred as is_barred, made as is_made, unmade as is_unmade, unready as is_unready, lacking as is_lacking, clashing as is_clashing};
ghost use Rattle.sets.specs.Members.{members};
ghost use Rattle.task.specs.Views.{line_of};
ghost use Rattle.step.specs.Outcome.{Performed};

use coupling::Coupling;
use moves::{Context, Literals};
use refusals::Question;
use sets::IndexSet;
use task::Task;

// Do the needs of some move of the step not hold?
pub fn some_unready(task: &Task, context: Context) -> bool
    ensures { result ≡ is_unready (line_of task.now) (members context.line) (members context.moves) }
{
    (0..task.moves()).any(|a| context.moves.contains(a) && !task.ready(a, context.line))
}

// What the triggered effects of the step's moves make true and false together.
pub fn joint_changes(task: &Task, context: Context) -> Literals
    ensures made { members result.plain ≡ is_made (line_of task.now) (members context.line) (members context.moves) }
    ensures unmade { members result.negated ≡ is_unmade (line_of task.now) (members context.line) (members context.moves) }
{
    let mut changes = Literals::empty();
    for a in 0..task.moves() {
        if context.moves.contains(a) {
            changes = changes.union(task.results(a, context));
        }
    }
    changes
}

// What whole steps are asked of, both lent.
#[derive(Drop)]
pub struct Joint<'t, 'c, C> {
    pub task: &'t Task,
    pub coupling: &'c C,
}

impl<'t, 'c, C: Coupling> Joint<'t, 'c, C> {
    // Is some move that `a` needs not among `moves`?
    pub fn lacks(&self, moves: IndexSet, a: u8) -> bool
        ensures { result ≡ is_missing (line_of self.now.task.now) (C.relations self.now.coupling.now) (members moves) a }
    {
        (0..self.task.moves()).any(|b| self.coupling.needs(a, b) && !moves.contains(b))
    }

    // Is some move that `a` bars among `moves`?
    pub fn clashes(&self, moves: IndexSet, a: u8) -> bool
        ensures { result ≡ is_barred (line_of self.now.task.now) (C.relations self.now.coupling.now) (members moves) a }
    {
        (0..self.task.moves()).any(|b| self.coupling.bars(a, b) && moves.contains(b))
    }

    // Does some move of the step need one that is not in it?
    pub fn some_lack(&self, moves: IndexSet) -> bool
        ensures { result ≡ is_lacking (line_of self.now.task.now) (C.relations self.now.coupling.now) (members moves) }
    {
        (0..self.task.moves()).any(|a| moves.contains(a) && self.lacks(moves, a))
    }

    // Does some move of the step bar one that is in it?
    pub fn some_clash(&self, moves: IndexSet) -> bool
        ensures { result ≡ is_clashing (line_of self.now.task.now) (C.relations self.now.coupling.now) (members moves) }
    {
        (0..self.task.moves()).any(|a| moves.contains(a) && self.clashes(moves, a))
    }

    // The fluents after the step, or the first question answered no.
    pub fn step_from(&self, context: Context) -> Result<IndexSet, Question>
        ensures { Performed (line_of self.now.task.now) (C.relations self.now.coupling.now) (members context.line) (members context.moves) result }
    {
        if some_unready(self.task, context) {
            return Err(Question::Needs);
        }
        if self.some_lack(context.moves) {
            return Err(Question::Present);
        }
        if self.some_clash(context.moves) {
            return Err(Question::Absent);
        }
        let Literals {
            plain: made,
            negated: unmade,
        } = joint_changes(self.task, context);
        if made.intersection(unmade).any_below(self.task.fluents()) {
            return Err(Question::Agree);
        }
        Ok(context.line.difference(unmade).union(made))
    }
}
