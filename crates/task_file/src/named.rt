// What a task file names: its sizes and its lists. What holds of every one stands in the ghost fields.
ghost use Rattle.std.specs.Prelude.{◌≡◌, ◌≤◌, true, map};
ghost use Rattle.model.specs.Sets.{subset, below, within};
ghost use Rattle.model.specs.Task.{moves_fit};
ghost use Rattle.sets.specs.Members.{members};
ghost use Rattle.moves.specs.Lists.{literals_of};
ghost use Rattle.moves.specs.Parts.{move_of};

use moves::{Literals, Move};
use sets::IndexSet;

// How many stations, fluents and moves a line has, each in its range.
#[derive(Clone, Copy)]
pub struct Sizes {
    pub stations: u8,
    pub fluents: u8,
    pub moves: u8,
    ghost staffed: { (1 ≤ stations) × (stations ≤ 16) },
    ghost marked: { (1 ≤ fluents) × (fluents ≤ 128) },
    ghost moved: { (1 ≤ moves) × (moves ≤ 64) },
}

// The lists of a task file, as far as they have been read. The moves are those that are complete.
#[derive(Drop)]
pub struct Lists {
    pub sizes: Sizes,
    pub start: IndexSet,
    pub goal: Literals,
    pub moves: Vec<Move>,
    ghost begun: { subset (members start) (below sizes.fluents) ≡ true },
    ghost aimed: { within sizes.fluents (literals_of goal) ≡ true },
    ghost fitting: { moves_fit sizes.stations sizes.fluents sizes.moves (map move_of moves.items) ≡ true },
}
