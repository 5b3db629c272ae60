// Worlds: a start, steps of a kind of their own, a rule for which step may be performed and what it leads to, a goal.
// Knows plans only as lists of steps, and judges them by one text. Knows nothing of lines, tasks or files.
#![tactic(auto)]

ghost use Rattle.std.specs.Prelude.{◌≡◌, Result};
ghost use Rattle.refusals.specs.declared.Question.{Question};
ghost use Rattle.world.specs.Plans.{Performs, Ran, Judged};

use refusals::{Question, Refusal};

// The rules speak of a model of the state, so that they need not know how the state is kept.
pub trait World {
    type Step;

    type State: Drop;

    ghost Model: { Type 0 };

    ghost model: { Self.State → Model };

    ghost begins: { Self → Model };

    // what a step leads to, or the question that it is refused by
    ghost leads: { Self → Model → Self.Step → Result Model Question };

    // whether the state after the last step will do, or the question that it is refused by
    ghost ends: { Self → Model → Result (Unit {0}) Question };

    fn start(&self) -> Self::State
        ensures { model result ≡ begins self.now };

    // A refused step leaves the state as it stood.
    fn perform(&self, state: &mut Self::State, step: &Self::Step) -> Result<(), Question>
        ensures { Performs (leads self.now) (model state.old) step.now result (model state.new) };

    fn goal(&self, state: &Self::State) -> Result<(), Question>
        ensures { result ≡ ends self.now (model state.now) };
}

// The state after all steps, or the first refused step.
pub fn run<W: World>(world: &W, steps: &[W::Step]) -> Result<W::State, Refusal>
    ensures { Ran (W.leads world.now) W.model (W.begins world.now) steps.now result }
{
    let mut state = world.start();
    for (i, step) in steps.iter().enumerate() {
        world
            .perform(&mut state, step)
            .map_err(|question| question.at(i))?;
    }
    Ok(state)
}

// Do the steps, each performed where it is reached, lead to the goal?
pub fn judge<W: World>(world: &W, steps: &[W::Step]) -> Result<(), Refusal>
    ensures { Judged (W.leads world.now) (W.ends world.now) (W.begins world.now) steps.now result }
{
    let state = run(world, steps)?;
    world
        .goal(&state)
        .map_err(|question| question.at(steps.len()))
}
