// Tables full of marks: the front that is lent to a question, and what the whole table holds afterwards. That
// is printed on one line, a run of equal numbers as how often, an `x` and the number: a table of 12,400
// places that are mostly zero or a mark takes a few bytes. Shorts are nodes, distances and lane numbers;
// numbers are ticks and what stands in records.
ghost use Rattle.std.specs.Prelude.{◌≡◌, take, replicate};
ghost use Rattle.try_batch.specs.Payloads.{short_in};
ghost use Rattle.try_batch.specs.Marked.{short_places, short_mark, byte_places, byte_mark};

use super::payload::{filled, front, rest, short_at};
use hall::Refusal;
use std::fmt::Display;
use std::io;
use std::io::Write;

// What each place of a table holds before it is lent, and each byte of an output.
pub const MARK: u16 = 7777;

pub const BYTE_MARK: u8 = 77;

// So many places has the longest table that is lent.
pub const PLACES: usize = 12400;

// More bytes than an output of a text must have.
pub const TEXT_ROOM: usize = 47242;

// The longest table that is lent.
pub fn marked_shorts() -> [u16; PLACES]
    ensures { result ≡ replicate short_places short_mark }
{
    filled(MARK)
}

// Room for more than a text.
pub fn marked_bytes() -> [u8; TEXT_ROOM]
    ensures { result ≡ replicate byte_places byte_mark }
{
    filled(BYTE_MARK)
}

// The front of a table: as much as the u16 at a place of the payload says and there is.
pub fn lend<'a, T>(table: &'a mut [T], s: &[u8], at: usize) -> &'a mut [T]
    ensures { result.now ≡ take (short_in s.now at) table.old }
{
    let n = (short_at(s, at) as usize).min(table.len());
    &mut table[..n]
}

// Prints a table under its word.
pub fn print_runs<W: Write, T: PartialEq + Display>(
    out: &mut W,
    word: &[u8],
    table: &[T],
) -> io::Result<()> {
    out.write_all(word)?;
    for run in table.chunk_by(|a, b| a == b) {
        write!(out, " {}x{}", run.len(), run[0])?;
    }
    writeln!(out)
}

// The answer to writing a job, the text as it is, and what all bytes behind it hold: after a refusal that is
// all there are.
pub fn print_written<W: Write>(
    out: &mut W,
    written: Result<usize, Refusal>,
    bytes: &[u8],
) -> io::Result<()> {
    match written {
        Ok(count) => {
            writeln!(out, "BYTES {count}")?;
            out.write_all(front(bytes, count))?;
            print_runs(out, b"out", rest(bytes, count))
        }
        Err(refusal) => {
            writeln!(out, "{refusal}")?;
            print_runs(out, b"out", bytes)
        }
    }
}
