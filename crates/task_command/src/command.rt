// The command that stands at the front of a part of a task file, and the part of the file after it.
ghost use Rattle.std.specs.Prelude.{◌≡◌, ◌<◌, length, IfOk};
ghost use Rattle.task_command.specs.Commands.{first, taken};
ghost use Rattle.refusals.specs.Answers.{Asked};

use moves::Literal;
use refusals::{Question, Refusal};

// The commands of a task file, with their operands.
#[derive(Clone, Copy, PartialEq, Eq, Debug)]
pub enum Command {
    Sizes(u8, u8, u8),
    Start(u8),
    Goal(Literal),
    Move(u8),
    Need(Literal),
    With(Literal),
    Effect,
    If(Literal),
    IfMove(Literal),
    Then(Literal),
    End,
}

// `place` is the offset of `rest` in its file.
#[tactic(auto, using(std::proofs::lemmas::List::take_rest))]
pub fn next(rest: &[u8], place: usize) -> Result<(Command, &[u8]), Refusal>
    ensures value { taken result ≡ first place rest.now }
    ensures asked { Asked place result }
    ensures shorter { IfOk result (λ p. length p.1.now < length rest.now) }
{
    match rest {
        [0x01, n, f, m, rest @ ..] => Ok((Command::Sizes(*n, *f, *m), rest)),
        [0x02, k, rest @ ..] => Ok((Command::Start(*k), rest)),
        [0x03, l, rest @ ..] => Ok((Command::Goal(Literal::from(*l)), rest)),
        [0x04, station, rest @ ..] => Ok((Command::Move(*station), rest)),
        [0x05, l, rest @ ..] => Ok((Command::Need(Literal::from(*l)), rest)),
        [0x06, l, rest @ ..] => Ok((Command::With(Literal::from(*l)), rest)),
        [0x07, rest @ ..] => Ok((Command::Effect, rest)),
        [0x08, l, rest @ ..] => Ok((Command::If(Literal::from(*l)), rest)),
        [0x09, l, rest @ ..] => Ok((Command::IfMove(Literal::from(*l)), rest)),
        [0x0a, l, rest @ ..] => Ok((Command::Then(Literal::from(*l)), rest)),
        [0x0f, rest @ ..] => Ok((Command::End, rest)),
        _ => Err(Question::Command.at(place)),
    }
}
