// Lines of standard input, each of which may be too long to keep.
ghost use Rattle.std.specs.Prelude.{◌≤◌, IfOk, length, vec_len};

use crate::flaw::Flaw;
use crate::text::find;
use std::alloc::Global;
use std::io;
use std::io::{BufRead, BufReader, ErrorKind, Stdin};

// The most bytes that a line may have, without its end.
const LIMIT: usize = 262144;

// A line as far as it has been read. Once it has a flaw, nothing of it is kept. Its memory serves the next line too.
#[derive(Drop)]
pub struct Line {
    bytes: Vec<u8>,
    flaw: Option<Flaw>,
    ghost short: { vec_len bytes ≤ 262144 },
}

impl Line {
    pub fn new(heap: Global) -> Line {
        Line {
            bytes: Vec::new(heap),
            flaw: None,
        }
    }

    // The bytes without the line's end, or why they are not kept.
    pub fn bytes(&self) -> Result<&[u8], Flaw>
        ensures short { IfOk result (λ bytes. length bytes.now ≤ 262144) }
    {
        match self.flaw {
            None => Ok(&self.bytes),
            Some(flaw) => Err(flaw),
        }
    }

    fn clear(&mut self, flaw: Option<Flaw>) {
        self.bytes.clear();
        self.flaw = flaw;
    }

    fn is_begun(&self) -> bool {
        !self.bytes.is_empty() || self.flaw.is_some()
    }

    fn add(&mut self, part: &[u8]) {
        if self.flaw.is_some() {
            return;
        }
        if part.len() > LIMIT - self.bytes.len() {
            self.clear(Some(Flaw::LongLine));
        } else if self.bytes.extend_from_slice(part).is_err() {
            self.clear(Some(Flaw::Memory));
        }
    }
}

// What stands after a part of a line.
#[derive(Clone, Copy)]
enum After {
    More,
    LineEnd,
    InputEnd,
}

// Adds to a line what the reader holds of it.
fn add_held(input: &mut BufReader<Stdin>, line: &mut Line) -> io::Result<After> {
    let held = match input.fill_buf() {
        Ok([]) => return Ok(After::InputEnd),
        Ok(held) => held,
        Err(e) if e.kind() == ErrorKind::Interrupted => return Ok(After::More),
        Err(e) => return Err(e),
    };
    let (part, taken, after) = match find(held, b'\n') {
        Some(i) => (&held[..i], i + 1, After::LineEnd),
        None => (held, held.len(), After::More),
    };
    line.add(part);
    input.consume(taken);
    Ok(after)
}

// Reads the next line in place of the one before. Is there one? There is none at the end of the input.
pub fn read_line(input: &mut BufReader<Stdin>, line: &mut Line) -> io::Result<bool>
    ensures short { vec_len line.new.bytes ≤ 262144 }
{
    line.clear(None);
    for _ in 0..u64::MAX {
        match add_held(input, line)? {
            After::More => {}
            After::LineEnd => return Ok(true),
            After::InputEnd => return Ok(line.is_begun()),
        }
    }
    Err(io::Error::from(ErrorKind::Other))
}
