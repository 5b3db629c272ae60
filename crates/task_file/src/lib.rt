// Task files: reading the lists that they name, command by command.
// Knows bytes, offsets and sizes of task files. Knows nothing of what the lists mean for a line.
#![tactic(auto)]

mod form;
mod named;
mod read;

pub use named::{Lists, Sizes};
pub use read::{LIMIT, read_lists};
pub use task_command::{Command, next};
