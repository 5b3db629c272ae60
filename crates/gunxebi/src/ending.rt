// How the program ends.
use std::alloc::AllocError;
use std::io;
use std::process::ExitCode;
use thiserror::Error;

// What a call came to that met no trouble.
#[derive(Clone, Copy)]
pub enum Ended {
    Well,
    // A file or a plan was refused, and why has been printed.
    Refused,
}

impl From<Ended> for ExitCode {
    fn from(ended: Ended) -> ExitCode {
        match ended {
            Ended::Well => ExitCode::SUCCESS,
            Ended::Refused => ExitCode::FAILURE,
        }
    }
}

// What keeps the program from its work, in one line for the person who called it.
#[derive(Debug, Drop, Error)]
pub enum Trouble {
    #[error("unknown command '{0}'; try 'gunxebi help'")]
    UnknownCommand(String),
    // The argument is what to write instead.
    #[error("wrong number of arguments; write '{0}'")]
    WrongArguments(&'static str),
    #[error("cannot read the arguments: {0}")]
    UnreadableArguments(io::Error),
    #[error("cannot read {0}: {1}")]
    UnreadableFile(String, io::Error),
    #[error("cannot read standard input: {0}")]
    UnreadableInput(io::Error),
    // Where a `?` stands after a print.
    #[error("cannot write to standard output: {0}")]
    UnwritableOutput(#[from] io::Error),
    #[error("not enough memory")]
    Memory,
}

impl From<AllocError> for Trouble {
    fn from(_e: AllocError) -> Trouble {
        Trouble::Memory
    }
}
