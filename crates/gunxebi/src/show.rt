// Judging a plan for a task, shown step by step. The sequencer gives the verdict; the steps are shown beside it.
ghost use Rattle.std.specs.Prelude.{◌≡◌};
ghost use Rattle.model.specs.Sets.{minus};
ghost use Rattle.sets.specs.Members.{members};

use crate::causes::{Stop, in_plan, unread};
use crate::ending::{Ended, Trouble};
use crate::files::read_file;
use crate::refused::{Reason, Source, refuse};
use crate::tasks::TaskInWords;
use crate::verdict::judge_written;
use crate::words::{Count, FLUENTS, List, StepInWords, plain};
use coupling::{Coupling, Written};
use moves::{Context, Literals};
use plan::read_joint;
use refusals::{Fault, Layer};
use sets::IndexSet;
use step::{Joint, Step};
use task::Task;

// What a step changes: the fluents that become true, and those that become false.
fn changes(before: IndexSet, after: IndexSet) -> Literals
    ensures plain { members result.plain ≡ minus (members after) (members before) }
    ensures negated { members result.negated ≡ minus (members before) (members after) }
{
    Literals {
        plain: after.difference(before),
        negated: before.difference(after),
    }
}

// Shows the steps as far as they are allowed, and gives where they end.
fn show_steps<C: Coupling>(
    rt: &HostRuntime,
    joint: &Joint<'_, '_, C>,
    steps: &[Step],
) -> Result<Context, Trouble> {
    let mut line = joint.task.start();
    let count = Count(steps.len(), "step");
    let start = List::new(FLUENTS, plain(line));
    println!(rt; "plan: {count}\n  true at the start: {start}")?;
    for (i, step) in steps.iter().enumerate() {
        let words = StepInWords(*step);
        println!(rt; "  step {i}: {words}")?;
        let moves = step.moves();
        let context = Context { line, moves };
        let Ok(after) = joint.step_from(context) else {
            println!(rt; "    refused")?;
            return Ok(context);
        };
        let changed = List::new(FLUENTS, changes(line, after));
        let holding = List::new(FLUENTS, plain(after));
        println!(rt; "    changed: {changed}\n    true after: {holding}")?;
        line = after;
    }
    let moves = IndexSet::empty();
    Ok(Context { line, moves })
}

// Shows the plan, and then the verdict on it.
fn show_plan(
    rt: &HostRuntime,
    task: &Task,
    file: &[u8],
    verdict: Result<(), Fault>,
) -> Result<Ended, Trouble> {
    let heap = rt.alloc();
    let coupling = Written::new(heap, task)?;
    let joint = &Joint {
        task,
        coupling: &coupling,
    };
    let context = match read_joint(heap, task, file) {
        Ok(steps) => show_steps(rt, joint, &steps)?,
        Err(_) => Context {
            line: task.start(),
            moves: IndexSet::empty(),
        },
    };
    let refusal = match verdict {
        Ok(()) => {
            println!(rt; "solves: each step is allowed, and the goal is met at the end")?;
            return Ok(Ended::Well);
        }
        Err(Fault::Refused(refusal)) => refusal,
        Err(Fault::Memory) => return Err(Trouble::Memory),
    };
    let found = match refusal.question.layer() {
        Layer::Form => in_plan(task, file, refusal),
        Layer::Run => Stop { joint, context }.found(refusal.question),
    };
    let source = Source::Plan;
    let reason = Reason {
        refusal,
        source,
        found,
        excerpt: None,
    };
    refuse(rt, reason)
}

// Shows the verdict where there is no task to show.
fn show_unread(
    rt: &HostRuntime,
    file: &[u8],
    verdict: Result<(), Fault>,
) -> Result<Ended, Trouble> {
    let Err(fault) = verdict else {
        return Err(Trouble::Memory);
    };
    refuse(rt, unread(file, fault)?)
}

// Judges the plan in one file for the task in another, and shows both.
pub fn judge(rt: &HostRuntime, task_path: &str, plan_path: &str) -> Result<Ended, Trouble> {
    let heap = rt.alloc();
    let task_file = read_file(rt, task_path)?;
    let plan_file = read_file(rt, plan_path)?;
    let verdict = judge_written(heap, &task_file, &plan_file);
    let Ok(task) = Task::read(heap, &task_file) else {
        return show_unread(rt, &task_file, verdict);
    };
    let words = TaskInWords::short(&task);
    print!(rt; "{words}")?;
    show_plan(rt, &task, &plan_file, verdict)
}
