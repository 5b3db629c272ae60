// When an effect is triggered, and what a move does.
ghost use Rattle.std.specs.Prelude.{◌≡◌, IfOk};
ghost use Rattle.model.specs.Task.{no_effect, triggered as is_triggered, results as all_results};
ghost use Rattle.sets.specs.Members.{members};
ghost use Rattle.moves.specs.Lists.{literals_of};
ghost use Rattle.moves.specs.Parts.{effect_of, move_of, Extends};

use crate::lists::Literals;
use crate::parts::{Context, Effect, Move};
use std::alloc::AllocFailed;

impl Effect {
    // Asks nothing and does nothing.
    pub fn empty() -> Effect
        ensures { effect_of result ≡ no_effect }
    {
        Effect {
            conditions: Literals::empty(),
            alongside: Literals::empty(),
            results: Literals::empty(),
        }
    }

    // Is it triggered?
    pub fn triggered(self, context: Context) -> bool
        ensures { result ≡ is_triggered (effect_of self) (members context.line) (members context.moves) }
    {
        self.conditions.hold(context.line) && self.alongside.hold(context.moves)
    }
}

impl Move {
    // The move with one effect more.
    pub fn with_effect(mut self, effect: Effect) -> Result<Move, AllocFailed<Effect>>
        ensures { IfOk result (Extends self effect) }
    {
        self.effects.push(effect)?;
        Ok(self)
    }

    // The results of its triggered effects.
    pub fn results(&self, context: Context) -> Literals
        ensures { literals_of result ≡ all_results (move_of self.now).effects (members context.line) (members context.moves) }
    {
        let mut all = Literals::empty();
        for effect in &self.effects {
            if effect.triggered(context) {
                all = all.union(effect.results);
            }
        }
        all
    }
}
