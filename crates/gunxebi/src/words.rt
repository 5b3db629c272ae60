// Lists, steps and commands in words. Stations, fluents and moves go by their numbers.
ghost use Rattle.std.specs.Prelude.{◌≡◌, not, if◌then◌else◌, Some, None};
ghost use Rattle.std.specs.Iterator.{IsFinite};
ghost use Rattle.model.specs.Sets.{none, either, any};
ghost use Rattle.sets.specs.Members.{members};

use moves::{Literal, Literals};
use sets::IndexSet;
use std::fmt;
use step::Step;
use task_command::Command;

// Things of a kind, counted: "1 step", "2 steps".
#[derive(Clone, Copy)]
pub struct Count(pub usize, pub &'static str);

impl fmt::Display for Count {
    fn fmt<W: fmt::Write>(&self, f: &mut fmt::Formatter<W>) -> fmt::Result {
        let Count(n, thing) = *self;
        let ending = if n == 1 { "" } else { "s" };
        write!(f, "{n} {thing}{ending}")
    }
}

// Writes items with a comma between each two, or what stands for none.
fn write_items<W: fmt::Write, I: Iterator + Drop>(
    f: &mut fmt::Formatter<W>,
    mut items: I,
    empty: &str,
) -> fmt::Result
where
    I::Item: fmt::Display + Drop,
    requires can { I.can_next items }
    requires ends { IsFinite (I.remaining items) }
{
    let Some(first) = items.next() else {
        return f.write_str(empty);
    };
    write!(f, "{first}")?;
    for item in items {
        write!(f, ", {item}")?;
    }
    Ok(())
}

// The numbers of a set, each as a plain literal.
pub fn plain(set: IndexSet) -> Literals
    ensures plain { members result.plain ≡ members set }
    ensures negated { members result.negated ≡ none }
{
    Literals {
        plain: set,
        negated: IndexSet::empty(),
    }
}

// The words of a list of literals.
#[derive(Clone, Copy)]
pub struct Terms {
    // What stands before a number that is plain in the list, and before one that is not.
    pub plain: &'static str,
    pub negated: &'static str,
    // What stands for an empty list.
    pub empty: &'static str,
}

pub const FLUENTS: Terms = Terms {
    plain: "fluent",
    negated: "not fluent",
    empty: "none",
};

pub const MOVES: Terms = Terms {
    plain: "move",
    negated: "not move",
    empty: "none",
};

// The literals of a list: "fluent 2, not fluent 3", or "none".
#[derive(Clone, Copy)]
pub struct List {
    pub terms: Terms,
    pub literals: Literals,
}

impl List {
    pub fn new(terms: Terms, literals: Literals) -> List
        ensures terms { result.terms ≡ terms }
        ensures literals { result.literals ≡ literals }
    {
        List { terms, literals }
    }

    pub fn is_empty(&self) -> bool
        ensures { result ≡ not (any 128 (either (members self.now.literals.plain) (members self.now.literals.negated))) }
    {
        let Literals { plain, negated } = self.literals;
        !plain.union(negated).any_below(128)
    }

    // What stands before a number of the list.
    fn before(&self, k: u8) -> Option<&'static str>
        ensures { result ≡ (if members self.now.literals.plain k then Some self.now.terms.plain else (if members self.now.literals.negated k then Some self.now.terms.negated else None)) }
    {
        if self.literals.plain.contains(k) {
            Some(self.terms.plain)
        } else if self.literals.negated.contains(k) {
            Some(self.terms.negated)
        } else {
            None
        }
    }
}

impl fmt::Display for List {
    fn fmt<W: fmt::Write>(&self, f: &mut fmt::Formatter<W>) -> fmt::Result {
        let items = (0..128u8).filter_map(|k| Some(Item(self.before(k)?, k)));
        write_items(f, items, self.terms.empty)
    }
}

// A number of a list: "not fluent 3".
#[derive(Clone, Copy)]
struct Item(&'static str, u8);

impl fmt::Display for Item {
    fn fmt<W: fmt::Write>(&self, f: &mut fmt::Formatter<W>) -> fmt::Result {
        let Item(before, k) = *self;
        write!(f, "{before} {k}")
    }
}

// The moves of a step, station by station: "station 0 makes move 2".
#[derive(Clone, Copy)]
pub struct StepInWords(pub Step);

impl fmt::Display for StepInWords {
    fn fmt<W: fmt::Write>(&self, f: &mut fmt::Formatter<W>) -> fmt::Result {
        let made = (0..16u8).filter_map(|station| Some(Made(station, self.0.move_of(station)?)));
        write_items(f, made, "no station makes a move")
    }
}

// A station with its move.
#[derive(Clone, Copy)]
struct Made(u8, u8);

impl fmt::Display for Made {
    fn fmt<W: fmt::Write>(&self, f: &mut fmt::Formatter<W>) -> fmt::Result {
        let Made(station, a) = *self;
        write!(f, "station {station} makes move {a}")
    }
}

// A literal of a command: "2" or "not 2".
#[derive(Clone, Copy)]
struct LiteralInWords(Literal);

impl fmt::Display for LiteralInWords {
    fn fmt<W: fmt::Write>(&self, f: &mut fmt::Formatter<W>) -> fmt::Result {
        let Literal { number, plain } = self.0;
        let not = if plain { "" } else { "not " };
        write!(f, "{not}{number}")
    }
}

// A command of a task file with its operands: "NEED not 2".
#[derive(Clone, Copy)]
pub struct CommandInWords(pub Command);

impl fmt::Display for CommandInWords {
    fn fmt<W: fmt::Write>(&self, f: &mut fmt::Formatter<W>) -> fmt::Result {
        match self.0 {
            Command::Sizes(stations, fluents, moves) => {
                write!(f, "SIZES {stations}, {fluents}, {moves}")
            }
            Command::Start(k) => write!(f, "START {k}"),
            Command::Goal(l) => write!(f, "GOAL {}", LiteralInWords(l)),
            Command::Move(station) => write!(f, "MOVE {station}"),
            Command::Need(l) => write!(f, "NEED {}", LiteralInWords(l)),
            Command::With(l) => write!(f, "WITH {}", LiteralInWords(l)),
            Command::Effect => f.write_str("EFFECT"),
            Command::If(l) => write!(f, "IF {}", LiteralInWords(l)),
            Command::IfMove(l) => write!(f, "IFMOVE {}", LiteralInWords(l)),
            Command::Then(l) => write!(f, "THEN {}", LiteralInWords(l)),
            Command::End => f.write_str("END"),
        }
    }
}
