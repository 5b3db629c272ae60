// What a refusal is about: the bytes of a file, or a move and what it lacks on the line.
ghost use Rattle.std.specs.Prelude.{◌≡◌};
ghost use Rattle.model.specs.Sets.{meet, minus};
ghost use Rattle.sets.specs.Members.{members};

use crate::ending::Trouble;
use crate::refused::{Found, Reason, Source, Verb};
use crate::words::{FLUENTS, List, MOVES, plain};
use coupling::Coupling;
use moves::{Context, Literals};
use refusals::{Fault, Question, Refusal};
use sets::IndexSet;
use step::{Joint, Step, joint_changes};
use task::Task;
use task_command::next;

// The literals that do not hold in a set.
fn unmet(literals: Literals, set: IndexSet) -> Literals
    ensures plain { members result.plain ≡ minus (members literals.plain) (members set) }
    ensures negated { members result.negated ≡ meet (members literals.negated) (members set) }
{
    Literals {
        plain: literals.plain.difference(set),
        negated: literals.negated.intersection(set),
    }
}

// What a move needs or bars of the other moves.
fn beside(a: u8, verb: Verb, others: IndexSet) -> Found {
    let what = List::new(MOVES, plain(others));
    Found::Move { a, verb, what }
}

// Where the steps of a plan end: the fluents that are true there, and the moves of the step that is refused there, if
// one is.
#[derive(Drop)]
pub struct Stop<'a, C> {
    pub joint: &'a Joint<'a, 'a, C>,
    pub context: Context,
}

impl<C: Coupling> Stop<'_, C> {
    // The moves of the task that pass a test.
    fn moves_where<F: Fn(u8) -> bool>(&self, test: F) -> IndexSet
        requires { F.IsAlwaysCallable test }
    {
        (0..self.joint.task.moves())
            .filter(|a| test(*a))
            .fold(IndexSet::empty(), |all, a| all.insert(a))
    }

    // The first move of the step that passes a test.
    fn first_move<F: Fn(u8) -> bool>(&self, test: F) -> Option<u8>
        requires { F.IsAlwaysCallable test }
    {
        (0..self.joint.task.moves()).find(|a| self.context.moves.contains(*a) && test(*a))
    }

    // The first move of the step whose needs do not hold.
    fn unready(&self) -> Option<Found> {
        let Joint { task, .. } = self.joint;
        let a = self.first_move(|a| !task.ready(a, self.context.line))?;
        let verb = Verb::Needs;
        let what = List::new(FLUENTS, unmet(task.get(a)?.needs, self.context.line));
        Some(Found::Move { a, verb, what })
    }

    // The first fluent that the moves of the step make true and false.
    fn torn(&self) -> Option<Found> {
        let Literals { plain, negated } = joint_changes(self.joint.task, self.context);
        let both = plain.intersection(negated);
        let fluent = (0..self.joint.task.fluents()).find(|k| both.contains(*k))?;
        let results = |a| self.joint.task.results(a, self.context);
        let by = self.first_move(|a| results(a).plain.contains(fluent))?;
        let but = self.first_move(|a| results(a).negated.contains(fluent))?;
        Some(Found::Torn { fluent, by, but })
    }

    // What a question finds there.
    pub fn found(&self, question: Question) -> Option<Found> {
        let Joint { coupling, .. } = self.joint;
        let moves = self.context.moves;
        match question {
            Question::Needs => self.unready(),
            // Needed moves that are not in the step.
            Question::Present => {
                let a = self.first_move(|a| self.joint.lacks(moves, a))?;
                let others = self.moves_where(|b| coupling.needs(a, b) && !moves.contains(b));
                Some(beside(a, Verb::Needs, others))
            }
            // Barred moves that are in it.
            Question::Absent => {
                let a = self.first_move(|a| self.joint.clashes(moves, a))?;
                let others = self.moves_where(|b| coupling.bars(a, b) && moves.contains(b));
                Some(beside(a, Verb::Bars, others))
            }
            Question::Agree => self.torn(),
            Question::Goal => {
                let what = List::new(FLUENTS, unmet(self.joint.task.goal(), self.context.line));
                Some(Found::Goal(what))
            }
            _ => None,
        }
    }
}

// What stands at an offset of a file.
fn byte(file: &[u8], offset: usize) -> Found {
    file.get(offset).map_or(Found::End, |b| Found::Byte(*b))
}

// What a question about the form of a task finds at its place.
fn in_task(file: &[u8], refusal: Refusal) -> Option<Found> {
    if refusal.question == Question::Limit {
        return None;
    }
    let found = match next(file.get(refusal.place..)?, refusal.place) {
        Ok((command, _)) => Found::Command(command),
        Err(_) => byte(file, refusal.place),
    };
    Some(found)
}

// Why a task file is not read.
pub fn unread(file: &[u8], fault: Fault) -> Result<Reason<'static>, Trouble> {
    let Fault::Refused(refusal) = fault else {
        return Err(Trouble::Memory);
    };
    let source = Source::Task;
    let found = in_task(file, refusal);
    Ok(Reason {
        refusal,
        source,
        found,
        excerpt: None,
    })
}

// The STEP at an offset.
fn step_at(file: &[u8], offset: usize) -> Option<Step> {
    let rest = file.get(offset..)?;
    let operands = rest.get(1..)?.first_chunk::<16>()?;
    Some(Step::new(operands))
}

// The first operand of a STEP that is no move.
fn unknown(task: &Task, step: Step) -> Option<Found> {
    (0..16u8).find_map(|station| {
        let operand = step.move_of(station)?;
        let is_none = task.station(operand).is_none();
        is_none.then_some(Found::NoMove { station, operand })
    })
}

// The first operand of a STEP that is a move of another station.
fn foreign(task: &Task, step: Step) -> Option<Found> {
    (0..16u8).find_map(|station| {
        let a = step.move_of(station)?;
        let own = task.station(a)?;
        (own != station).then_some(Found::Foreign { station, a, own })
    })
}

// What a question about the form of a plan finds at its place.
pub fn in_plan(task: &Task, file: &[u8], refusal: Refusal) -> Option<Found> {
    match refusal.question {
        Question::Limit => None,
        Question::Range => unknown(task, step_at(file, refusal.place)?),
        Question::Station => foreign(task, step_at(file, refusal.place)?),
        _ => Some(byte(file, refusal.place)),
    }
}
