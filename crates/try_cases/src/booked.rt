// Admissions to a floor book that is lent (crate `try_book`), and questions to it. Behind its network a case
// has a book, and then the calls (`B`), of which each is made on the book that the one before left, or
// questions whether a move may go (`G`), all to the same book. How many there are is the payload's first
// number. The second says whether the book is told after each of them or after the last one only, and the
// third how many times more each is made on the book that it meets: the benchmark gets their times from that.
use admission::Stepped;
use hall::{Ends, Network};
use slots::{Book, Slot};
use std::io;
use std::io::Write;
use try_batch::kind::Kind;
use try_batch::marked::print_runs;
use try_batch::payload::{behind_job, filled, job_room, loaded_network, long_at, rest, short_at};
use try_book::{admit_lent, may_start_lent};

// What a payload has of a slot, of a book, and of a call or a question.
const SLOT_BYTES: usize = 10;

pub(crate) const BOOK_BYTES: usize = 648;

const CALL_BYTES: usize = 8;

// The clock and the dwell of a book, and four numbers of each slot.
const BOOK_NUMBERS: usize = 258;

fn slot_at(s: &[u8], at: usize) -> Slot {
    let part = rest(s, at);
    Slot {
        start: short_at(part, 0),
        goal: short_at(part, 2),
        distance: short_at(part, 4),
        tick: long_at(part, 6),
    }
}

// The book at the front of a payload: its clock, its dwell and its slots.
pub(crate) fn book_at(s: &[u8]) -> Book {
    let mut slots: [Slot; Book::SLOTS] = filled(Slot::free());
    for (i, slot) in slots.iter_mut().enumerate() {
        *slot = slot_at(s, 8 + SLOT_BYTES * i);
    }
    Book::with_slots(long_at(s, 0), long_at(s, 4), slots)
}

// The numbers of a book, in the order in which a payload has them.
fn print_book<W: Write>(out: &mut W, book: &Book) -> io::Result<()> {
    let mut numbers: [u32; BOOK_NUMBERS] = filled(0);
    numbers[0] = book.clock;
    numbers[1] = book.dwell;
    for (slot, of_it) in book.slots.iter().zip(numbers[2..].chunks_exact_mut(4)) {
        of_it.copy_from_slice(&[
            slot.start as u32,
            slot.goal as u32,
            slot.distance as u32,
            slot.tick,
        ]);
    }
    print_runs(out, b"book", &numbers)
}

// Calls, questions or trolleys one after the other, as many as the payload's first number says: what each
// leaves is the book that the next one finds. The book is told at the end, and where it is to be told after
// each also before each but the first.
pub(crate) fn one_after_another<W: Write, F: FnMut(&mut W, Book) -> io::Result<Book>>(
    out: &mut W,
    s: &[u8],
    book: Book,
    mut next: F,
) -> io::Result<()>
    requires { F.IsAlwaysCallable next }
{
    let every = short_at(s, 2);
    let mut held = book;
    for i in 0..short_at(s, 0) {
        if 0 < i && 0 < every {
            print_book(out, &held)?;
        }
        held = next(out, held)?;
    }
    print_book(out, &held)
}

// One call: its answer is printed, and what it leaves is the result. Further calls on the same book have the
// same answer, and nothing of them is kept.
pub(crate) fn call<W: Write>(
    out: &mut W,
    further: u16,
    clock: u32,
    network: &Network,
    ends: Ends,
    book: Book,
) -> io::Result<Book> {
    for _ in 0..further {
        admit_lent(book, clock, network, ends);
    }
    let Stepped { answer, book } = admit_lent(book, clock, network, ends);
    match answer {
        Ok(entry) => writeln!(out, "STARTS {} {}", entry.tick, entry.slot)?,
        Err(refusal) => writeln!(out, "{refusal}")?,
    }
    Ok(book)
}

// One question whether a move may go at a tick: its answer is printed. Further ones have the same answer.
fn ask<W: Write>(
    out: &mut W,
    further: u16,
    t: u32,
    network: &Network,
    ends: Ends,
    book: Book,
) -> io::Result<()> {
    for _ in 0..further {
        let _ = may_start_lent(book, t, network, ends);
    }
    match may_start_lent(book, t, network, ends) {
        Ok(None) => writeln!(out, "MAY"),
        Ok(Some(slot)) => writeln!(out, "FORBIDS {slot}"),
        Err(refusal) => writeln!(out, "{refusal}"),
    }
}

// A call or a question, whose tick stands where a call has its clock value, and the book that the next one
// finds.
fn one<W: Write>(
    out: &mut W,
    kind: Kind,
    further: u16,
    s: &[u8],
    network: &Network,
    book: Book,
) -> io::Result<Book> {
    let clock = long_at(s, 0);
    let ends = Ends {
        start: short_at(s, 4),
        goal: short_at(s, 6),
    };
    if let Kind::MayStart = kind {
        ask(out, further, clock, network, ends, book)?;
        return Ok(book);
    }
    call(out, further, clock, network, ends, book)
}

// A case of either kind. Its network is a job without moves and order, and the book stands behind the job's
// dwell.
pub(crate) fn admit<W: Write>(out: &mut W, kind: Kind, s: &[u8], job: &[u8]) -> io::Result<()> {
    let mut lane_room = job_room();
    let mut closed_room = job_room();
    let network = loaded_network(job, &mut lane_room, &mut closed_room);
    let from = behind_job(job);
    let further = short_at(s, 4);
    let mut calls = rest(from, BOOK_BYTES);
    one_after_another(out, s, book_at(from), |out, book| {
        let call = calls;
        calls = rest(call, CALL_BYTES);
        one(out, kind, further, call, &network, book)
    })
}
