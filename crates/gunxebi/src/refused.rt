// A refusal in words: what was asked, what was found there, and what to do.
use crate::ending::{Ended, Trouble};
use crate::excerpt::Excerpt;
use crate::words::{CommandInWords, Count, List};
use refusals::{Layer, Question, Refusal};
use std::fmt;
use task_command::Command;

// The file that a question of form is asked of.
#[derive(Clone, Copy)]
pub enum Source {
    Task,
    Plan,
}

impl fmt::Display for Source {
    fn fmt<W: fmt::Write>(&self, f: &mut fmt::Formatter<W>) -> fmt::Result {
        f.write_str(match *self {
            Source::Task => "task file",
            Source::Plan => "plan file",
        })
    }
}

// Where a question was asked: "at offset 3 of the task file" or "step 3".
#[derive(Clone, Copy)]
struct Place(Refusal, Source);

impl fmt::Display for Place {
    fn fmt<W: fmt::Write>(&self, f: &mut fmt::Formatter<W>) -> fmt::Result {
        let Place(refusal, source) = *self;
        let place = refusal.place;
        match refusal.question.layer() {
            Layer::Form => write!(f, "at offset {place} of the {source}"),
            Layer::Run => write!(f, "step {place}"),
        }
    }
}

// What a move asks of the line or of the other moves of its step.
#[derive(Clone, Copy)]
pub enum Verb {
    Needs,
    Bars,
}

impl fmt::Display for Verb {
    fn fmt<W: fmt::Write>(&self, f: &mut fmt::Formatter<W>) -> fmt::Result {
        f.write_str(match *self {
            Verb::Needs => "needs",
            Verb::Bars => "bars",
        })
    }
}

// What stands in the way of a yes.
#[derive(Clone, Copy)]
pub enum Found {
    // The first byte past the limit of a file, by its offset.
    Past(usize),
    // The file ends at the place of the refusal.
    End,
    // The byte at the place of the refusal, where no command stands.
    Byte(u8),
    // The command of a task file at the place of the refusal.
    Command(Command),
    // The operand of a station is no move.
    NoMove { station: u8, operand: u8 },
    // The operand of a station is a move of another one.
    Foreign { station: u8, a: u8, own: u8 },
    // A move needs what does not hold, or needs or bars other moves than the step's.
    Move { a: u8, verb: Verb, what: List },
    // One move makes a fluent true that another makes false.
    Torn { fluent: u8, by: u8, but: u8 },
    // Goal literals do not hold.
    Goal(List),
}

impl fmt::Display for Found {
    fn fmt<W: fmt::Write>(&self, f: &mut fmt::Formatter<W>) -> fmt::Result {
        match *self {
            Found::Past(offset) => write!(f, "a byte at offset {offset}"),
            Found::End => f.write_str("the end of the file"),
            Found::Byte(b) => write!(f, "the byte {b:02X}"),
            Found::Command(command) => write!(f, "{}", CommandInWords(command)),
            Found::NoMove { station, operand } => {
                write!(f, "station {station} has {operand:02X}, which is no move")
            }
            Found::Foreign { station, a, own } => {
                write!(f, "station {station} has move {a}, a move of station {own}")
            }
            Found::Move { a, verb, what } => write!(f, "move {a} {verb} {what}"),
            Found::Torn { fluent, by, but } => {
                write!(
                    f,
                    "move {by} makes fluent {fluent} true, move {but} makes it false"
                )
            }
            Found::Goal(unmet) => write!(f, "not met: {unmet}"),
        }
    }
}

// Why something is refused: a line with what was asked, one with what was found, where that is known, and the bytes
// there, where they are shown.
#[derive(Clone, Copy)]
pub struct Reason<'a> {
    pub refusal: Refusal,
    pub source: Source,
    pub found: Option<Found>,
    pub excerpt: Option<Excerpt<'a>>,
}

impl Reason<'_> {
    // Writes what was asked and answered no, of a file or of the line.
    fn write_asked<W: fmt::Write>(&self, f: &mut fmt::Formatter<W>) -> fmt::Result {
        let source = self.source;
        let place = Place(self.refusal, source);
        match self.refusal.question {
            Question::Limit => write!(f, "the {source} has more bytes than its limit"),
            Question::Command => write!(f, "no command with all its operands stands {place}"),
            Question::Order => write!(f, "the command {place} is out of order"),
            Question::Range => write!(f, "an operand of the command {place} is out of range"),
            Question::New => write!(f, "the fluent or move {place} is in its list already"),
            Question::Effects => write!(f, "the EFFECT {place} is the ninth of its move"),
            Question::Station => write!(f, "the STEP {place} has a move of another station"),
            Question::Needs => write!(f, "the needs of a move of {place} do not hold"),
            Question::Present => write!(f, "a move of {place} needs one that is not in it"),
            Question::Absent => write!(f, "a move of {place} bars one that is in it"),
            Question::Agree => write!(f, "the results of {place} do not agree"),
            Question::Goal => {
                let steps = Count(self.refusal.place, "step");
                write!(f, "the goal is not met after {steps}")
            }
        }
    }

    // What to do about it.
    pub fn hint(&self) -> &'static str {
        match (self.refusal.question, self.source) {
            (Question::Limit, Source::Task) =>
                "make the file shorter; a task file has at most 8,192 bytes",
            (Question::Limit, Source::Plan) =>
                "cut the plan in two; a plan has at most 256 steps, which are 4,352 bytes",
            (Question::Command, Source::Task) =>
                "look for an operand too many or too few further up, or for a missing END",
            (Question::Command, Source::Plan) => "write 31 and sixteen operands for each step",
            (Question::Order, _) =>
                "compare with the order of commands in docs/FORMATS.md, and count the moves",
            (Question::Range, Source::Task) =>
                "compare the operands with SIZES; numbers begin at 0",
            (Question::Range, Source::Plan) =>
                "name a move that the task has, or FF for none; numbers begin at 0",
            (Question::New, _) => "take out one of the two; the sign does not matter",
            (Question::Effects, _) =>
                "join effects that have the same conditions, or divide the move into two",
            (Question::Station, _) => "put the move into the operand of its own station",
            (Question::Needs, _) =>
                "bring the need about in an earlier step; what the step itself does comes too late",
            (Question::Present, _) =>
                "put the needed move into the step, or take out the move that needs it",
            (Question::Absent, _) => "put the two moves into different steps",
            (Question::Agree, _) =>
                "put the moves into different steps, or give an effect a condition",
            (Question::Goal, _) => "add steps, or look for the step that made a goal literal false",
        }
    }
}

impl fmt::Display for Reason<'_> {
    fn fmt<W: fmt::Write>(&self, f: &mut fmt::Formatter<W>) -> fmt::Result {
        write!(f, "{}: ", self.refusal)?;
        self.write_asked(f)?;
        if let Some(found) = self.found {
            write!(f, "\nfound: {found}")?;
        }
        if let Some(excerpt) = self.excerpt {
            write!(f, "\n{excerpt}")?;
        }
        Ok(())
    }
}

// Says why something is refused, and what to do.
pub fn refuse(rt: &HostRuntime, reason: Reason) -> Result<Ended, Trouble> {
    let hint = reason.hint();
    println!(rt; "{reason}\nhint: {hint}")?;
    Ok(Ended::Refused)
}
