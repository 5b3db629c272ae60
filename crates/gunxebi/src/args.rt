// What the program is asked to do.
use crate::ending::Trouble;
use std::env;

#[derive(Drop)]
pub enum Command {
    Example,
    Show { task: String },
    Check { task: String },
    Judge { task: String, plan: String },
    Batch,
    Help,
}

// The command that the program's arguments name.
pub fn read(rt: &HostRuntime) -> Result<Command, Trouble> {
    // The first is the program's name.
    let mut words = env::args(rt).map_err(Trouble::UnreadableArguments)?.skip(1);
    let Some(word) = words.next() else {
        return Ok(Command::Example);
    };
    match (word.as_str(), words.next(), words.next(), words.next()) {
        ("show", Some(task), None, None) => Ok(Command::Show { task }),
        ("show", ..) => Err(Trouble::WrongArguments("gunxebi show TASK")),
        ("check", Some(task), None, None) => Ok(Command::Check { task }),
        ("check", ..) => Err(Trouble::WrongArguments("gunxebi check TASK")),
        ("judge", Some(task), Some(plan), None) => Ok(Command::Judge { task, plan }),
        ("judge", ..) => Err(Trouble::WrongArguments("gunxebi judge TASK PLAN")),
        ("batch", None, None, None) => Ok(Command::Batch),
        ("batch", ..) => Err(Trouble::WrongArguments("gunxebi batch")),
        ("help" | "--help" | "-h", None, None, None) => Ok(Command::Help),
        ("help" | "--help" | "-h", ..) => Err(Trouble::WrongArguments("gunxebi help")),
        _ => Err(Trouble::UnknownCommand(word)),
    }
}
