// Requests from standard input, answered on standard output line by line.
use crate::ending::Trouble;
use crate::flaw::Flaw;
use crate::lines::{Line, read_line};
use crate::verdict::judge_written;
use crate::{hex, request};
use refusals::{Fault, Refusal};
use std::alloc::Global;
use std::io::{BufReader, BufWriter, Write};
use thiserror::Error;

// Why a request is not answered by 'solves'.
#[derive(Clone, Copy, Debug, Error)]
enum Unsolved {
    #[error("{0}")]
    Refused(Refusal),
    #[error("error {0}")]
    Error(#[from] Flaw),
}

impl From<Fault> for Unsolved {
    fn from(fault: Fault) -> Unsolved {
        match fault {
            Fault::Refused(refusal) => Unsolved::Refused(refusal),
            Fault::Memory => Unsolved::Error(Flaw::Memory),
        }
    }
}

// Does the plan of a request solve its task?
fn solve(heap: Global, line: &Line) -> Result<(), Unsolved> {
    let request = request::read(line.bytes()?)?;
    let task = hex::bytes(heap, request.task)?;
    let plan = hex::bytes(heap, request.plan)?;
    judge_written(heap, &task, &plan)?;
    Ok(())
}

// Answers every line. What waits is written whenever no more requests have been read.
pub fn answer_all(rt: &HostRuntime) -> Result<(), Trouble> {
    let heap = rt.alloc();
    let mut input = BufReader::new(heap, rt.stdin()).map_err(|_| Trouble::Memory)?;
    let mut output = BufWriter::new(heap, rt.stdout()).map_err(|_| Trouble::Memory)?;
    let mut line = Line::new(heap);
    for _ in 0..u64::MAX {
        if !read_line(&mut input, &mut line).map_err(Trouble::UnreadableInput)? {
            break;
        }
        match solve(heap, &line) {
            Ok(()) => writeln!(output, "solves")?,
            Err(unsolved) => writeln!(output, "{unsolved}")?,
        }
        if input.buffer().is_empty() {
            output.flush()?;
        }
    }
    output.flush()?;
    Ok(())
}
