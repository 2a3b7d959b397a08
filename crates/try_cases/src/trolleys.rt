// Trolleys to a floor book that is lent (crate `try_book`). Behind its network a case has a book, and then
// the trolleys, of which each is made on the book that the one before left. A trolley is its clock value, how
// many places of the list of ticks are lent, and its moves; one with 65,535 places has its moves admitted one
// by one instead. The payload's first number is how many there are, the second whether the book is told after
// each of them or after the last one only, and the third how many times more each is made on the book that it
// meets.
use crate::booked::{BOOK_BYTES, book_at, call, one_after_another};
use admission::trolley::{Rode, Stop};
use hall::{Ends, Network};
use slots::Book;
use std::io;
use std::io::Write;
use try_batch::marked::{MARK, lend, print_runs};
use try_batch::payload::{
    behind_job, behind_list, filled, job_room, loaded_list, loaded_network, long_at, rest, short_at,
};
use try_book::admit_all_lent;

// The places that stand for moves one by one.
const ONE_BY_ONE: u16 = 65535;

// Where the moves of a trolley stand.
const MOVES_AT: usize = 6;

fn print_ended<W: Write>(out: &mut W, ended: Result<(), Stop>) -> io::Result<()> {
    match ended {
        Ok(()) => writeln!(out, "ALL"),
        Err(Stop::Before(refusal)) => writeln!(out, "{refusal}"),
        Err(Stop::At(k, refusal)) => writeln!(out, "MOVE {k} {refusal}"),
    }
}

fn one_by_one<W: Write>(
    out: &mut W,
    further: u16,
    clock: u32,
    network: &Network,
    moves: &[u16],
    book: Book,
) -> io::Result<Book> {
    let mut held = book;
    for pair in moves.chunks_exact(2) {
        let ends = Ends {
            start: pair[0],
            goal: pair[1],
        };
        held = call(out, further, clock, network, ends, held)?;
    }
    Ok(held)
}

// One trolley: how it ended and the list of ticks are printed, and what it leaves is the result.
fn ride<W: Write>(
    out: &mut W,
    further: u16,
    s: &[u8],
    network: &Network,
    book: Book,
) -> io::Result<Book> {
    let clock = long_at(s, 0);
    let mut room = job_room();
    let moves = loaded_list(rest(s, MOVES_AT), &mut room);
    if short_at(s, 4) == ONE_BY_ONE {
        return one_by_one(out, further, clock, network, moves, book);
    }
    for _ in 0..further {
        let mut spare: [u32; 100] = filled(MARK as u32);
        admit_all_lent(book, clock, network, moves, lend(&mut spare, s, 4));
    }
    let mut ticks: [u32; 100] = filled(MARK as u32);
    let Rode { ended, book } = admit_all_lent(book, clock, network, moves, lend(&mut ticks, s, 4));
    print_ended(out, ended)?;
    print_runs(out, b"ticks", &ticks)?;
    Ok(book)
}

// The question. Its network is a job without moves and order, and the book stands behind the job's dwell.
pub(crate) fn admit_all<W: Write>(out: &mut W, s: &[u8], job: &[u8]) -> io::Result<()> {
    let mut lane_room = job_room();
    let mut closed_room = job_room();
    let network = loaded_network(job, &mut lane_room, &mut closed_room);
    let from = behind_job(job);
    let further = short_at(s, 4);
    let mut trolleys = rest(from, BOOK_BYTES);
    one_after_another(out, s, book_at(from), |out, book| {
        let trolley = trolleys;
        trolleys = behind_list(rest(trolley, MOVES_AT));
        ride(out, further, trolley, &network, book)
    })
}
