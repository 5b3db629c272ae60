// Literals, one by one and in lists.
ghost use Rattle.std.specs.Prelude.{◌≡◌, ◌≤◌};
ghost use Rattle.model.specs.Sets.{no_literals, both, holds, names as is_named};
ghost use Rattle.sets.specs.Members.{members};
ghost use Rattle.refusals.specs.Answers.{seen};
ghost use Rattle.moves.specs.Lists.{literals_of, literal as read_literal, asked, added, numbered};

use refusals::{Question, Refusal};
use sets::IndexSet;

// A fluent or a move, or "not" it.
#[derive(Clone, Copy, PartialEq, Eq, Debug)]
pub struct Literal {
    pub number: u8,
    pub plain: bool,
}

// The literals of one list: which numbers stand in it plain, and which with "not".
#[derive(Clone, Copy, PartialEq, Eq, Debug)]
pub struct Literals {
    pub plain: IndexSet,
    pub negated: IndexSet,
}

// The number is in the low seven bits; a set high bit says "not".
impl From<u8> for Literal {
    ghost from_gives = { λ b r. r ≡ read_literal b };

    fn from(b: u8) -> Literal {
        Literal {
            number: b % 128,
            plain: b < 128,
        }
    }
}

// The questions of a list: is a number below `bound`, and is it not there yet?
fn ask(k: u8, bound: u8, is_there: bool, place: usize) -> Result<(), Refusal>
    ensures { result ≡ asked k bound is_there place }
{
    if k >= bound {
        return Err(Question::Range.at(place));
    }
    if is_there {
        return Err(Question::New.at(place));
    }
    Ok(())
}

impl Literals {
    pub fn empty() -> Literals
        ensures { literals_of result ≡ no_literals }
    {
        Literals {
            plain: IndexSet::empty(),
            negated: IndexSet::empty(),
        }
    }

    // One literal more, at the place of its command. Its number is below `bound` and new in the list, or it is
    // refused.
    pub fn add(self, literal: Literal, bound: u8, place: usize) -> Result<Literals, Refusal>
        requires { bound ≤ 128 }
        ensures { seen literals_of result ≡ added (literals_of self) literal bound place }
    {
        let k = literal.number;
        ask(k, bound, self.names(k), place)?;
        Ok(if literal.plain {
            Literals {
                plain: self.plain.insert(k),
                ..self
            }
        } else {
            Literals {
                negated: self.negated.insert(k),
                ..self
            }
        })
    }

    // Does the number stand in the list, plain or with "not"?
    fn names(self, k: u8) -> bool
        ensures { result ≡ is_named (literals_of self) k }
    {
        self.plain.contains(k) || self.negated.contains(k)
    }

    pub fn union(self, other: Literals) -> Literals
        ensures { literals_of result ≡ both (literals_of self) (literals_of other) }
    {
        Literals {
            plain: self.plain.union(other.plain),
            negated: self.negated.union(other.negated),
        }
    }

    // Does every literal hold in `set`?
    pub fn hold(self, set: IndexSet) -> bool
        ensures { result ≡ holds (literals_of self) (members set) }
    {
        set.includes(self.plain) && set.disjoint(self.negated)
    }
}

// The numbers with one more, which is below `bound` and new among them.
pub fn with_number(set: IndexSet, k: u8, bound: u8, place: usize) -> Result<IndexSet, Refusal>
    requires { bound ≤ 128 }
    ensures { seen members result ≡ numbered (members set) k bound place }
{
    ask(k, bound, set.contains(k), place)?;
    Ok(set.insert(k))
}
