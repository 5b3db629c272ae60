// The parts of a task: literals, effects and moves, when they hold and what they do.
// Knows numbers, signs and sets. Knows nothing of files beyond one operand byte, and nothing of whole tasks.
// Inner to the workspace: `Literals::add` and `with_number` presume a bound of at most 128, and every caller is proved.
#![tactic(auto)]

mod effects;
mod lists;
mod parts;

pub use lists::{Literal, Literals, with_number};
pub use parts::{Context, Effect, Move};
