// The task of a line, and what it answers about the line.
// Knows the lists that a task file names. Knows nothing of plans, couplings or runs.
#![tactic(auto)]

mod asks;
mod read;
mod task;

pub use task::Task;
