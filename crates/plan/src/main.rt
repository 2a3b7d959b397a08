// The program: a job text comes in on standard input, and its plan or its refusal goes out (section 10 of the
// rules). What is printed for a text is the promise of `report::answer`, and that this is what the program writes
// for its input that of `answer_input`, for any input and any output; only the calls of read and write are assumed.
// The first bytes of a long input have its answer (rule 7.7; `answer_of_front` in crate report), so no more are
// read.
#![tactic(auto)]

ghost use Rattle.std.specs.Prelude.{OnOk};
ghost use Rattle.plan.specs.Answered.{Answered};

use input::read_full;
use reader::FIRST_BYTES;
use report::print::ROOM;
use std::io;
use std::io::{Read, Write};

// Reads the text, or its first bytes, and prints its answer; or reading or printing failed.
fn answer_input<R: Read, W: Write>(input: &mut R, out: &mut W) -> io::Result<()>
    ensures { OnOk result
        (Answered (R.remaining input.old) (W.contents out.old) (W.contents out.new)) }
{
    let mut text = [0u8; FIRST_BYTES];
    let mut room = [0u8; ROOM];
    let n = read_full(input, &mut text)?;
    let printed = report::answer(&text[..n], &mut room);
    out.write_all(&room[..printed])
}

fn main(rt: HostRuntime) -> io::Result<()> {
    answer_input(&mut rt.stdin(), &mut rt.stdout())
}
