// The form of a task file, command by command.
ghost use Rattle.std.specs.Prelude.{◌≡◌, ◌≢◌, true, IfOk, IfErr};
ghost use Rattle.model.specs.Task.{move_fits};
ghost use Rattle.refusals.specs.Answers.{Asked, Blamed, seen};
ghost use Rattle.moves.specs.Parts.{effect_of, move_of};
ghost use Rattle.task_file.specs.Form.{stands};
ghost use Rattle.task_form.specs.Reading.{first_named, begins, ends, with_move, in_lists as lists_take, in_move as move_takes, in_effect as effect_takes, takes};
ghost use Rattle.task_file.specs.Views.{counts_of, named_of, stage_of, sized, Took};

use crate::named::{Lists, Sizes};
use moves::{Effect, Literals, Move, with_number};
use refusals::{Fault, Question, Refusal};
use sets::IndexSet;
use std::alloc::{AllocFailed, Global};
use task_command::Command;

const MOST_EFFECTS: usize = 8;

// The part of the file that the next command stands in, with the move and the effect that are not complete yet.
#[derive(Drop)]
pub(crate) enum Part {
    Lists,
    Move(Move),
    Effect(Move, Effect),
    Ended,
}

impl Sizes {
    // The sizes that SIZES names, at its place.
    fn named(stations: u8, fluents: u8, moves: u8, place: usize) -> Result<Sizes, Refusal>
        ensures asked { Asked place result }
        ensures value { seen counts_of result ≡ sized stations fluents moves place }
    {
        if !(1..=16).contains(&stations)
            || !(1..=128).contains(&fluents)
            || !(1..=64).contains(&moves)
        {
            return Err(Question::Range.at(place));
        }
        Ok(Sizes {
            stations,
            fluents,
            moves,
        })
    }
}

impl Lists {
    // A new move at MOVE, unless the last one was there already.
    fn begin(&self, station: u8, place: usize) -> Result<Part, Fault>
        ensures standing { IfOk result (λ x. stands self.now x ≡ true) }
        ensures blamed { IfErr result (Blamed place) }
        ensures memory { IfErr result (λ e. e ≢ Fault.Memory) }
        ensures took { Took self.now (begins (named_of self.now) station place) result }
    {
        if self.moves.len() >= usize::from(self.sizes.moves) {
            return Err(Question::Order.at(place).into());
        }
        if station >= self.sizes.stations {
            return Err(Question::Range.at(place).into());
        }
        Ok(Part::Move(Move {
            station,
            needs: Literals::empty(),
            companions: Literals::empty(),
            effects: Vec::new(*self.moves.allocator()),
        }))
    }

    // END, once all moves are there.
    fn end(&self, place: usize) -> Result<Part, Fault>
        ensures standing { IfOk result (λ x. stands self.now x ≡ true) }
        ensures blamed { IfErr result (Blamed place) }
        ensures memory { IfErr result (λ e. e ≢ Fault.Memory) }
        ensures took { Took self.now (ends (named_of self.now) place) result }
    {
        if self.moves.len() != usize::from(self.sizes.moves) {
            return Err(Question::Order.at(place).into());
        }
        Ok(Part::Ended)
    }

    // A command that stands in no move. After a move only MOVE and END come here.
    // Inlined, or the part would come back through memory at every command.
    #[inline(always)]
    fn in_lists(&mut self, command: Command, place: usize) -> Result<Part, Fault>
        ensures sizes { self.new.sizes ≡ self.old.sizes }
        ensures standing { IfOk result (λ x. stands self.new x ≡ true) }
        ensures blamed { IfErr result (Blamed place) }
        ensures memory { IfErr result (λ e. e ≢ Fault.Memory) }
        ensures took { Took self.new (lists_take (named_of self.old) command place) result }
    {
        match command {
            Command::Start(fluent) => {
                self.start = with_number(self.start, fluent, self.sizes.fluents, place)?;
                Ok(Part::Lists)
            }
            Command::Goal(literal) => {
                self.goal = self.goal.add(literal, self.sizes.fluents, place)?;
                Ok(Part::Lists)
            }
            Command::Move(station) => self.begin(station, place),
            Command::End => self.end(place),
            _ => Err(Question::Order.at(place).into()),
        }
    }

    // A move that is complete joins the others.
    fn add_move(&mut self, complete: Move) -> Result<(), AllocFailed<Move>>
        requires { move_fits self.old.sizes.stations self.old.sizes.fluents self.old.sizes.moves (move_of complete) ≡ true }
        ensures sizes { self.new.sizes ≡ self.old.sizes }
        ensures joined { IfOk result (λ _. named_of self.new ≡ with_move (named_of self.old) (move_of complete)) }
    {
        self.moves.push(complete)?;
        Ok(())
    }

    // A command in a move, before its first effect.
    fn in_move(&mut self, mut current: Move, command: Command, place: usize) -> Result<Part, Fault>
        requires { stands self.old (Part.Move current) ≡ true }
        ensures sizes { self.new.sizes ≡ self.old.sizes }
        ensures standing { IfOk result (λ x. stands self.new x ≡ true) }
        ensures blamed { IfErr result (Blamed place) }
        ensures took { Took self.new (move_takes (named_of self.old) (move_of current) command place) result }
    {
        match command {
            Command::Need(literal) => {
                current.needs = current.needs.add(literal, self.sizes.fluents, place)?;
                Ok(Part::Move(current))
            }
            Command::With(literal) => {
                current.companions = current.companions.add(literal, self.sizes.moves, place)?;
                Ok(Part::Move(current))
            }
            Command::Effect => Ok(Part::Effect(current, Effect::empty())),
            Command::Move(_) | Command::End => {
                self.add_move(current)?;
                self.in_lists(command, place)
            }
            _ => Err(Question::Order.at(place).into()),
        }
    }

    // A command in an effect.
    fn in_effect(
        &mut self,
        current: Move,
        mut effect: Effect,
        command: Command,
        place: usize,
    ) -> Result<Part, Fault>
        requires { stands self.old (Part.Effect current effect) ≡ true }
        ensures sizes { self.new.sizes ≡ self.old.sizes }
        ensures standing { IfOk result (λ x. stands self.new x ≡ true) }
        ensures blamed { IfErr result (Blamed place) }
        ensures took { Took self.new (effect_takes (named_of self.old) (move_of current) (effect_of effect) command place) result }
    {
        match command {
            Command::If(literal) => {
                effect.conditions = effect.conditions.add(literal, self.sizes.fluents, place)?;
                Ok(Part::Effect(current, effect))
            }
            Command::IfMove(literal) => {
                effect.alongside = effect.alongside.add(literal, self.sizes.moves, place)?;
                Ok(Part::Effect(current, effect))
            }
            Command::Then(literal) => {
                effect.results = effect.results.add(literal, self.sizes.fluents, place)?;
                Ok(Part::Effect(current, effect))
            }
            // The effect that is not complete yet is not among those of the move.
            Command::Effect if current.effects.len() + 1 >= MOST_EFFECTS => {
                Err(Question::Effects.at(place).into())
            }
            Command::Effect => Ok(Part::Effect(current.with_effect(effect)?, Effect::empty())),
            Command::Move(_) | Command::End => {
                let complete = current.with_effect(effect)?;
                self.add_move(complete)?;
                self.in_lists(command, place)
            }
            _ => Err(Question::Order.at(place).into()),
        }
    }

    // SIZES stands first in a file.
    pub(crate) fn first(heap: Global, command: Command) -> Result<Lists, Refusal>
        ensures asked { Asked 0 result }
        ensures value { seen named_of result ≡ first_named command }
    {
        let Command::Sizes(stations, fluents, moves) = command else {
            return Err(Question::Order.at(0));
        };
        Ok(Lists {
            sizes: Sizes::named(stations, fluents, moves, 0)?,
            start: IndexSet::empty(),
            goal: Literals::empty(),
            moves: Vec::new(heap),
        })
    }

    // The part that the next command stands in, after one more command.
    pub(crate) fn take(&mut self, part: Part, command: Command, place: usize) -> Result<Part, Fault>
        requires { stands self.old part ≡ true }
        ensures standing { IfOk result (λ x. stands self.new x ≡ true) }
        ensures blamed { IfErr result (Blamed place) }
        ensures took { Took self.new (takes (named_of self.old) (stage_of part) command place) result }
    {
        match part {
            Part::Lists => self.in_lists(command, place),
            Part::Move(current) => self.in_move(current, command, place),
            Part::Effect(current, effect) => self.in_effect(current, effect, command, place),
            Part::Ended => Err(Question::Order.at(place).into()),
        }
    }
}
