// What the crates of the comparison share: a case of a batch from standard input, the numbers and lists of
// its payload, tables full of marks, and the printing of answers. The format of a batch and of the answers
// stands in second/README.md. Nothing is checked here but what keeps a program safe: a case that is cut off
// or too long is answered by what there is of it.
//
// Each function is safe for every input and ends, and its promise fixes what it answers. Two things no
// contract can say: what is read and written, so `next_case` promises less and a function that only prints
// nothing more; and what a lent room holds after a part of it is answered (payload.rt, marked.rt).
#![tactic(auto)]

pub mod kind;
pub mod marked;
pub mod payload;
pub mod print;

ghost use Rattle.std.specs.Prelude.{◌≡◌, IfOk, OnErr, length, replicate};
ghost use Rattle.try_batch.specs.Cases.{payload_room, CaseRead};

use input::read_full;
use std::io;
use std::io::{Read, Write};

// A case: the byte of its kind, and how many bytes of the space its payload takes.
#[derive(Clone, Copy)]
pub struct Case {
    pub kind: u8,
    pub count: usize,
}

// So many bytes has the room for a payload; no payload of a batch has more.
pub const PAYLOAD_ROOM: usize = 262144;

// Room for a payload.
pub fn payload_room() -> [u8; PAYLOAD_ROOM]
    ensures { result ≡ replicate payload_room 0 }
{
    payload::filled(0)
}

// Reads the next case, as much of its payload as the space and the input have, and prints its number; there is
// none at the end of the batch. The kind and the bytes come from the input, of which no contract says anything.
// So all that can be promised is that the payload fits into the space, which keeps its length, and that the
// end of the batch leaves the space as it came. Where reading or printing failed, the space keeps its length,
// and what was read lies in it.
pub fn next_case<R: Read, W: Write>(
    input: &mut R,
    out: &mut W,
    number: u64,
    space: &mut [u8],
) -> io::Result<Option<Case>>
    ensures case { IfOk result (CaseRead space.old space.new) }
    ensures failed { OnErr result (length space.new ≡ length space.old) }
{
    let mut head = [0u8; 5];
    if read_full(input, &mut head)? < 5 {
        return Ok(None);
    }
    let end = (payload::long_at(&head, 1) as usize).min(space.len());
    let count = read_full(input, &mut space[..end])?;
    writeln!(out, "# {number}")?;
    Ok(Some(Case {
        kind: head[0],
        count,
    }))
}
