// The form of a joint plan file.
ghost use Rattle.std.specs.Prelude.{◌≡◌};
ghost use Rattle.refusals.specs.Answers.{seen};
ghost use Rattle.task.specs.Views.{line_of};
ghost use Rattle.step.specs.Views.{operands_of};
ghost use Rattle.plan.specs.Commands.{operands};
ghost use Rattle.plan.specs.Form.{ranged, own, placed, formed, joint_form, Reads};

use crate::command::{JointCommand, next};
use refusals::{Fault, Question, Refusal};
use std::alloc::Global;
use step::{Step, move_named};
use task::Task;

// The most bytes that a joint plan may have: 256 steps.
pub const LIMIT: usize = 4352;

// Is every operand none, or the number of a move?
fn in_range(moves: u8, operands: &[u8]) -> bool
    ensures { result ≡ ranged moves operands.now }
{
    operands
        .iter()
        .all(|operand| move_named(*operand).is_none_or(|a| a < moves))
}

// Is the operand none, or a move of this station?
fn is_own(task: &Task, station: usize, operand: u8) -> bool
    ensures { result ≡ own (line_of task.now) station operand }
{
    move_named(operand).is_none_or(|a| task
        .station(a)
        .is_some_and(|found| usize::from(found) == station))
}

// Is every operand none, or a move of the station that it stands for?
fn in_place(task: &Task, operands: &[u8]) -> bool
    ensures { result ≡ placed (line_of task.now) 0 operands.now }
{
    operands
        .iter()
        .enumerate()
        .all(|(station, operand)| is_own(task, station, *operand))
}

// The step of a STEP command, after the questions of its form.
fn read_step(task: &Task, command: JointCommand<'_>, place: usize) -> Result<Step, Refusal>
    ensures { seen operands_of result ≡ formed (line_of task.now) place (operands command.entry) }
{
    let JointCommand::Step(operands) = command;
    if !in_range(task.moves(), operands) {
        return Err(Question::Range.at(place));
    }
    if !in_place(task, operands) {
        return Err(Question::Station.at(place));
    }
    Ok(Step::new(operands))
}

// The steps of a joint plan for a task.
pub fn read_joint(heap: Global, task: &Task, file: &[u8]) -> Result<Vec<Step>, Fault>
    ensures { Reads (joint_form (line_of task.now) file.now) result }
{
    if file.len() > LIMIT {
        return Err(Question::Limit.at(0).into());
    }
    let mut steps = Vec::new(heap);
    let mut rest = file;
    while !rest.is_empty() {
        let place = file.len() - rest.len();
        let (command, after) = next(rest, place)?;
        steps.push(read_step(task, command, place)?)?;
        rest = after;
    }
    Ok(steps)
}
