// The commands of a task file, and their reader.
// Knows command bytes and operands. Knows nothing of the order of commands, of ranges or of lists.
#![tactic(auto)]

mod command;

pub use command::{Command, next};
