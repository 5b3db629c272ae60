// Reading the lists of a task file.
ghost use Rattle.std.specs.Prelude.{◌≡◌, ◌≤◌, length, vec_len, MatchResult};
ghost use Rattle.refusals.specs.Answers.{Within};
ghost use Rattle.task_form.specs.Form.{form};
ghost use Rattle.task_file.specs.Views.{Reads};

use crate::form::Part;
use crate::named::Lists;
use refusals::{Fault, Question};
use std::alloc::Global;
use task_command::next;

// The most bytes that a task file may have.
pub const LIMIT: usize = 8192;

// What a file names, with all its moves: the task that it denotes, or the first question answered no. A refusal names a
// question of form, at an offset in the file or at its length.
pub fn read_lists(heap: Global, file: &[u8]) -> Result<Lists, Fault>
    ensures exact { Reads (form file.now) result }
    ensures placed { MatchResult result (λ l. (vec_len l.moves ≡ l.sizes.moves) × (length file.now ≤ 8192)) (Within (length file.now)) }
{
    let is_too_long = file.len() > LIMIT;
    if is_too_long {
        return Err(Question::Limit.at(0).into());
    }
    let (command, mut rest) = next(file, 0)?;
    let mut lists = Lists::first(heap, command)?;
    let mut part = Part::Lists;
    while !rest.is_empty() {
        let place = file.len() - rest.len();
        let (command, after) = next(rest, place)?;
        part = lists.take(part, command, place)?;
        rest = after;
    }
    let Part::Ended = part else {
        return Err(Question::Command.at(file.len()).into());
    };
    Ok(lists)
}
