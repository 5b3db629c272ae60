// The world of whole steps: its states are the fluents that are true.
ghost use Rattle.model.specs.Sets.{Set};
ghost use Rattle.sets.specs.Members.{members};
ghost use Rattle.task.specs.Views.{line_of};
ghost use Rattle.step.specs.Views.{moves_of};
ghost use Rattle.step.specs.Joint.{joint_leads, joint_ends};

use crate::joint::Joint;
use crate::record::Step;
use coupling::Coupling;
use moves::Context;
use refusals::Question;
use sets::IndexSet;
use world::World;

impl<'t, 'c, C: Coupling> World for Joint<'t, 'c, C> {
    type Step = Step;

    type State = IndexSet;

    ghost Model = { Set };

    ghost model = { members };

    ghost begins = { λ w. (line_of w.task.now).start };

    ghost leads = { λ w s a. joint_leads (line_of w.task.now) (C.Coupling.relations w.coupling.now) s (moves_of a) };

    ghost ends = { λ w s. joint_ends (line_of w.task.now) s };

    fn start(&self) -> IndexSet {
        self.task.start()
    }

    fn perform(&self, state: &mut IndexSet, step: &Step) -> Result<(), Question> {
        *state = self.step_from(Context {
            line: *state,
            moves: step.moves(),
        })?;
        Ok(())
    }

    fn goal(&self, state: &IndexSet) -> Result<(), Question> {
        if self.task.met(*state) {
            Ok(())
        } else {
            Err(Question::Goal)
        }
    }
}
