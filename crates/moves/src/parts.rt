// Effects and moves, and what they are read against.
use crate::lists::Literals;
use sets::IndexSet;

// What an effect is read against: the fluents that are true before the step, and the moves of the step.
#[derive(Clone, Copy, PartialEq, Eq, Debug)]
pub struct Context {
    pub line: IndexSet,
    pub moves: IndexSet,
}

// What a move does where the conditions hold on the line and `alongside` holds of the moves of the step.
#[derive(Clone, Copy, PartialEq, Eq, Debug)]
pub struct Effect {
    pub conditions: Literals,
    pub alongside: Literals,
    pub results: Literals,
}

// A move of one station. Its companions are the moves that it needs in the same step, or bars from it.
#[derive(Debug, Drop)]
pub struct Move {
    pub station: u8,
    pub needs: Literals,
    pub companions: Literals,
    pub effects: Vec<Effect>,
}
