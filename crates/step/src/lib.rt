// A step of several stations at once: its record, whether it is allowed, what it leaves, and the world of such steps.
// Knows a task through what it answers, and any coupling. Knows nothing of files.
#![tactic(auto)]

mod joint;
mod record;
mod rule;

pub use joint::{Joint, joint_changes, some_unready};
pub use record::{Step, move_named};
