// Why a call is refused: the question that was answered no, and where it was asked.
// Knows the numbers and layers of the questions. Knows nothing of what they are asked about.
#![tactic(auto)]

ghost use Rattle.std.specs.Prelude.{◌≡◌};
ghost use Rattle.refusals.specs.Answers.{refusal};
ghost use Rattle.refusals.specs.Numbers.{number_of, layer_of, question};
ghost use Rattle.refusals.specs.declared.Fault.TheVariants.{Refused, Memory};

use std::alloc::{AllocError, AllocFailed as Unplaced};
use std::error::Error;
use std::fmt;

// The questions that calls put, each named by what it asks for, with its number.
#[derive(Clone, Copy, PartialEq, Eq, Debug)]
pub enum Question {
    // Is the file within its limit?
    Limit = 1,
    // Does a known command with all its operands stand here?
    Command = 2,
    // Is the command in its order?
    Order = 3,
    // Is every operand in range?
    Range = 4,
    // Is the fluent or move new in its list?
    New = 5,
    // Is it at most the move's eighth effect?
    Effects = 6,
    // Is the move that station's?
    Station = 7,
    // Do the needs of every move hold?
    Needs = 12,
    // Is every needed move in the step?
    Present = 13,
    // Is every barred move absent from the step?
    Absent = 14,
    // Do the results of the triggered effects agree?
    Agree = 15,
    // Is the goal met at the end?
    Goal = 16,
}

// What a question is about: the bytes of a file, or what the line does.
#[derive(Clone, Copy, PartialEq, Eq, Debug)]
pub enum Layer {
    Form,
    Run,
}

impl fmt::Display for Layer {
    fn fmt<W: fmt::Write>(&self, f: &mut fmt::Formatter<W>) -> fmt::Result {
        f.write_str(match self {
            Layer::Form => "form",
            Layer::Run => "run",
        })
    }
}

impl Question {
    // The refusal by this question at a place.
    pub fn at(self, place: usize) -> Refusal
        ensures { result ≡ refusal self place }
    {
        Refusal {
            question: self,
            place,
        }
    }

    // No two questions have the same number.
    pub fn number(self) -> u8
        ensures value { result ≡ number_of self }
        ensures known { question result ≡ self }
    {
        self as u8
    }

    pub fn layer(self) -> Layer
        ensures { result ≡ layer_of self }
    {
        match self {
            Question::Limit
            | Question::Command
            | Question::Order
            | Question::Range
            | Question::New
            | Question::Effects
            | Question::Station => Layer::Form,
            Question::Needs
            | Question::Present
            | Question::Absent
            | Question::Agree
            | Question::Goal => Layer::Run,
        }
    }
}

// The first question answered no, and where: a byte offset for form, the index of a step for run, the count of
// steps for the goal.
#[derive(Clone, Copy, PartialEq, Eq, Debug)]
pub struct Refusal {
    pub question: Question,
    pub place: usize,
}

// In short: "refused 12 run 1".
impl fmt::Display for Refusal {
    fn fmt<W: fmt::Write>(&self, f: &mut fmt::Formatter<W>) -> fmt::Result {
        let number = self.question.number();
        let layer = self.question.layer();
        write!(f, "refused {number} {layer} {}", self.place)
    }
}

impl Error for Refusal {}

// Why a call that may need memory gives no result.
#[derive(Clone, Copy, PartialEq, Eq, Debug)]
pub enum Fault {
    Refused(Refusal),
    Memory,
}

impl From<Refusal> for Fault {
    ghost from_gives = { λ e r. r ≡ Refused e };

    fn from(e: Refusal) -> Fault {
        Fault::Refused(e)
    }
}

impl From<AllocError> for Fault {
    ghost from_gives = { λ _ r. r ≡ Memory };

    fn from(_e: AllocError) -> Fault {
        Fault::Memory
    }
}

impl<T: Drop> From<Unplaced<T>> for Fault {
    ghost from_gives = { λ _ r. r ≡ Memory };

    fn from(_e: Unplaced<T>) -> Fault {
        Fault::Memory
    }
}
