// Answers the cases of a batch on standard input, many in one process, so that the library can be compared
// with the second planner. The kinds with records and those with a floor book are here, all others in
// `try_answers`. The answers are the library's; this program only takes the cases apart and prints.
#![tactic(auto)]

mod booked;
mod on_records;
mod trolleys;

use std::io;
use std::io::{BufWriter, Read, Write};
use try_answers::answer;
use try_batch::kind::Kind;
use try_batch::payload::{body, front};
use try_batch::{next_case, payload_room};

fn answer_case<W: Write>(out: &mut W, letter: u8, s: &[u8]) -> io::Result<()> {
    match Kind::try_from(letter) {
        Ok(kind @ (Kind::Admit | Kind::MayStart)) => booked::admit(out, kind, s, body(s)),
        Ok(Kind::Trolleys) => trolleys::admit_all(out, s, body(s)),
        Ok(Kind::ReadRecords) => on_records::read(out, s, body(s)),
        Ok(
            kind @ (Kind::PlanRecords
            | Kind::HouseRecords
            | Kind::JudgeRecords
            | Kind::WriteRecords),
        ) => on_records::ask(out, kind, s, body(s)),
        _ => answer(out, letter, s),
    }
}

// A proved loop has to end, and nothing says that the input does. So the loop counts its turns, up to a
// number that no run uses up.
fn answer_all<R: Read, W: Write>(input: &mut R, out: &mut W) -> io::Result<()> {
    let mut space = payload_room();
    for number in 0..1000000000 {
        let Some(case) = next_case(input, out, number, &mut space)? else {
            return Ok(());
        };
        answer_case(out, case.kind, front(&space, case.count))?;
    }
    Ok(())
}

fn main(rt: HostRuntime) -> io::Result<()> {
    let mut out = BufWriter::new(rt.alloc(), rt.stdout())?;
    answer_all(&mut rt.stdin(), &mut out)?;
    out.flush()
}
