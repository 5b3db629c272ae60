// The verdict on a plan for a task, as files, under the coupling that the task writes.
ghost use Rattle.gunxebi.specs.Files.{WrittenVerdict, WrittenFileVerdict};

use coupling::Written;
use refusals::Fault;
use sequencer::judge_joint_plan;
use std::alloc::Global;
use task::Task;

pub fn judge_written(heap: Global, task: &[u8], plan: &[u8]) -> Result<(), Fault>
    ensures judged { WrittenVerdict task.now plan.now result }
    ensures exact { WrittenFileVerdict task.now plan.now result }
{
    let read = Task::read(heap, task)?;
    let coupling = Written::new(heap, &read)?;
    judge_joint_plan(heap, &read, &coupling, plan)
}
