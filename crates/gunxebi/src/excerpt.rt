// The bytes of a file around an offset, in hexadecimal, with a caret below the one at the offset.
ghost use Rattle.std.specs.Prelude.{◌≡◌, ◌+◌, ◌*◌, ◌/◌, ◌%◌, ◌<◌, ◌≤◌, take, drop, MatchOption};

use std::fmt;

// The bytes of a row.
pub const ROW: usize = 16;

// What a row has before its first byte, and for each byte: "  0016  " and "0F ".
const MARGIN: usize = 8;

const CELL: usize = 3;

// Where the row of an offset begins.
fn row_of(offset: usize) -> usize
    ensures { result ≡ offset / 16 * 16 }
{
    offset / ROW * ROW
}

// Where the row before another begins, if there is one.
fn row_before(row: usize) -> Option<usize>
    ensures { MatchOption result (row < 16) (λ before. before + 16 ≡ row) }
{
    row.checked_sub(ROW)
}

// Where the row after another begins, if that is before the end of the file.
fn row_after(row: usize, end: usize) -> Option<usize>
    ensures { MatchOption result (end ≤ row + 16) (λ after. (after ≡ row + 16) × (after < end)) }
{
    row.checked_add(ROW).filter(|after| *after < end)
}

// The column, counted from 0, of the first digit of the byte at an offset.
fn column(offset: usize) -> usize
    ensures { result ≡ 8 + 3 * (offset % 16) }
{
    MARGIN + CELL * (offset % ROW)
}

// A row: "  0016  0A 00 0F". Like every offset, that of its first byte is decimal.
#[derive(Clone, Copy)]
struct Row<'a> {
    offset: usize,
    bytes: &'a [u8],
}

impl<'a> Row<'a> {
    // The row of a file that begins at an offset. Past the end of the file it has no bytes.
    fn at(file: &'a [u8], offset: usize) -> Row<'a>
        ensures offset { result.offset ≡ offset }
        ensures bytes { result.bytes.now ≡ take 16 (drop offset file.now) }
    {
        let rest = file.get(offset..).unwrap_or(&[]);
        let bytes = rest.get(..ROW).unwrap_or(rest);
        Row { offset, bytes }
    }
}

impl fmt::Display for Row<'_> {
    fn fmt<W: fmt::Write>(&self, f: &mut fmt::Formatter<W>) -> fmt::Result {
        let offset = self.offset;
        write!(f, "  {offset:04}")?;
        if let [first, rest @ ..] = self.bytes {
            write!(f, "  {first:02X}")?;
            for b in rest {
                write!(f, " {b:02X}")?;
            }
        }
        Ok(())
    }
}

// The row of an offset, the caret below it, and the rows before and after it that the file has.
#[derive(Clone, Copy)]
pub struct Excerpt<'a> {
    pub file: &'a [u8],
    pub offset: usize,
}

impl fmt::Display for Excerpt<'_> {
    fn fmt<W: fmt::Write>(&self, f: &mut fmt::Formatter<W>) -> fmt::Result {
        let Excerpt { file, offset } = *self;
        let row = row_of(offset);
        if let Some(before) = row_before(row) {
            write!(f, "{}\n", Row::at(file, before))?;
        }
        let width = column(offset) + 1;
        write!(f, "{}\n{:>width$}", Row::at(file, row), "^")?;
        if let Some(after) = row_after(row, file.len()) {
            write!(f, "\n{}", Row::at(file, after))?;
        }
        Ok(())
    }
}
