// Joint plan files: their commands, their form, and the steps that they hold.
// Knows the sizes of a task and the stations of its moves. Knows nothing of what steps do.
#![tactic(auto)]

mod command;
mod form;

pub use command::{JointCommand, next};
pub use form::{LIMIT, read_joint};
