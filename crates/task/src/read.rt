// Reading a task file.
ghost use Rattle.std.specs.Prelude.{◌≡◌, ◌≤◌, length, IfOk, MatchResult};
ghost use Rattle.refusals.specs.Answers.{Within};
ghost use Rattle.model.specs.Line.{Sound};
ghost use Rattle.model.specs.Bounds.{Bounded};
ghost use Rattle.model.specs.Size.{task_bytes};
ghost use Rattle.task_form.specs.Form.{form};
ghost use Rattle.task.specs.Views.{Reads, Texts, task_of, line_of};

use crate::task::Task;
use refusals::Fault;
use std::alloc::Global;
use task_file::read_lists;

impl Task {
    // The task that a file denotes, or the first question answered no. A refusal names a question of form, at an offset
    // in the file or at its length.
    pub fn read(heap: Global, file: &[u8]) -> Result<Task, Fault>
        ensures exact { Reads (form file.now) result }
        ensures text { Texts file.now result }
        ensures bounded { IfOk result (λ t. Bounded (task_of t)) }
        ensures sound { IfOk result (λ t. Sound (line_of t)) }
        ensures carried { IfOk result (λ t. (length file.now ≡ task_bytes (task_of t)) × (task_bytes (task_of t) ≤ 8192)) }
        ensures placed { MatchResult result (λ _. length file.now ≤ 8192) (Within (length file.now)) }
    {
        let lists = read_lists(heap, file)?;
        Ok(Task { lists })
    }
}
