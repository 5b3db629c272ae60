// The judging of joint plans.
ghost use Rattle.world.specs.Plans.{Judged};
ghost use Rattle.task.specs.Views.{line_of};
ghost use Rattle.step.specs.Views.{moves_of};
ghost use Rattle.step.specs.Joint.{joint_leads, joint_ends};
ghost use Rattle.sequencer.specs.Joint.{Verdict, Filed, FileVerdict};

use coupling::Coupling;
use plan::read_joint;
use refusals::{Fault, Refusal};
use std::alloc::Global;
use step::{Joint, Step};
use task::Task;
use world::judge;

// Does the joint plan with these steps solve the task under the coupling?
pub fn judge_steps<C: Coupling>(task: &Task, coupling: &C, steps: &[Step]) -> Result<(), Refusal>
    ensures { Judged (λ s a. joint_leads (line_of task.now) (C.relations coupling.now) s (moves_of a)) (joint_ends (line_of task.now)) (line_of task.now).start steps.now result }
{
    judge(&Joint { task, coupling }, steps)
}

// The same for the bytes of a plan file.
pub fn judge_joint_plan<C: Coupling>(
    heap: Global,
    task: &Task,
    coupling: &C,
    plan: &[u8],
) -> Result<(), Fault>
    ensures { Verdict (line_of task.now) (C.relations coupling.now) plan.now result }
{
    let steps = read_joint(heap, task, plan)?;
    Ok(judge_steps(task, coupling, &steps)?)
}

// The same for the bytes of a task file and of a plan file. The task is read first.
pub fn judge_joint<C: Coupling>(
    heap: Global,
    task: &[u8],
    coupling: &C,
    plan: &[u8],
) -> Result<(), Fault>
    ensures filed { Filed (C.relations coupling.now) task.now plan.now result }
    ensures exact { FileVerdict (C.relations coupling.now) task.now plan.now result }
{
    let read = Task::read(heap, task)?;
    judge_joint_plan(heap, &read, coupling, plan)
}
