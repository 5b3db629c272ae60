// The sequencer's calls: on tasks, couplings and plans, typed or as files.
// Knows every layer below and adds none of its own meaning: each call is a composition of theirs.
#![tactic(auto)]

mod joint;

pub use joint::{judge_joint, judge_joint_plan, judge_steps};
pub use step::Joint;
