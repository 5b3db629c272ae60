// A task file alone: whether it is accepted, and what it says.
ghost use Rattle.std.specs.Prelude.{◌≡◌, if◌then◌else◌, nat_eq};
ghost use Rattle.refusals.specs.Numbers.{number_of};

use crate::causes::unread;
use crate::ending::{Ended, Trouble};
use crate::excerpt::Excerpt;
use crate::files::read_file;
use crate::refused::{Found, Reason, refuse};
use crate::tasks::{Sizes, TaskInWords};
use refusals::{Fault, Question, Refusal};
use std::io;
use task::Task;
use task_file::LIMIT as TASK_LIMIT;

// The offset of the byte that a task file is refused for. The place of a file that is too long is 0, but the byte is
// the first one past the limit.
fn offender(refusal: Refusal) -> usize
    ensures { result ≡ (if nat_eq (number_of refusal.question) 1 then 8192 else refusal.place) }
{
    match refusal.question {
        Question::Limit => TASK_LIMIT,
        _ => refusal.place,
    }
}

// Says why a task file is not read, with the bytes where it is refused.
fn refuse_task(rt: &HostRuntime, file: &[u8], fault: Fault) -> Result<Ended, Trouble> {
    let reason = unread(file, fault)?;
    let offset = offender(reason.refusal);
    let found = reason.found.or(Some(Found::Past(offset)));
    let excerpt = Some(Excerpt { file, offset });
    refuse(
        rt,
        Reason {
            found,
            excerpt,
            ..reason
        },
    )
}

// Reads the task of a file, and says something of it where it is accepted.
fn say_of_task<F: FnOnce(&Task) -> io::Result<()>>(
    rt: &HostRuntime,
    path: &str,
    say: F,
) -> Result<Ended, Trouble>
    requires { F.IsAlwaysCallable say }
{
    let file = read_file(rt, path)?;
    match Task::read(rt.alloc(), &file) {
        Ok(task) => {
            say(&task)?;
            Ok(Ended::Well)
        }
        Err(fault) => refuse_task(rt, &file, fault),
    }
}

// Says whether a task file is accepted.
pub fn check_task(rt: &HostRuntime, path: &str) -> Result<Ended, Trouble> {
    say_of_task(rt, path, |task| {
        let sizes = Sizes::short(task);
        println!(rt; "accepted: {sizes}")
    })
}

// Shows the task of a file.
pub fn show_task(rt: &HostRuntime, path: &str) -> Result<Ended, Trouble> {
    say_of_task(rt, path, |task| {
        let words = TaskInWords::full(task);
        print!(rt; "{words}")
    })
}
