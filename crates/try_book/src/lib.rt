// An admission and a trolley to a floor book that is lent, and the question whether a move may go, for
// programs that have the book by value: it is lent by `&mut` to `book::admit` or `book::admit_all`, and
// answered as that leaves it, or by `&` to `book::may_start`. So a program can run all three as they are
// lent, many times and on any record.
//
// Promised is, for every input, the promise of the function that is called, of the book that came and the one
// that is answered. That fixes the answer, the book and the list of ticks (proofs/Unique.antt). Nothing is
// decided here.
#![tactic(auto)]

ghost use Rattle.hall.specs.Floor.{network_in};
ghost use Rattle.admission.specs.Admission.{Admission, said_answer};
ghost use Rattle.admission.specs.Trolley.{said_ended, Ride};
ghost use Rattle.admission.specs.Asking.{Asking, said_asked};

use admission::Stepped;
use admission::trolley::Rode;
use book::{admit, admit_all, may_start};
use hall::{Ends, Network, Refusal};
use slots::Book;

// `book::admit` with the book lent.
pub fn admit_lent(book: Book, clock: u32, network: &Network, ends: Ends) -> Stepped
    ensures { Admission
        (network_in network.now)
        book clock ends.start ends.goal
        (said_answer result.answer) result.book }
{
    let mut lent = book;
    let answer = admit(&mut lent, clock, network, ends);
    Stepped { answer, book: lent }
}

// `book::admit_all` with the book lent.
pub fn admit_all_lent(
    book: Book,
    clock: u32,
    network: &Network,
    moves: &[u16],
    ticks: &mut [u32],
) -> Rode
    ensures { Ride
        (network_in network.now)
        book clock
        moves.now ticks.old
        (said_ended result.ended) result.book ticks.new }
{
    let mut lent = book;
    let ended = admit_all(&mut lent, clock, network, moves, ticks);
    Rode { ended, book: lent }
}

// `book::may_start` with the book lent.
pub fn may_start_lent(
    book: Book,
    t: u32,
    network: &Network,
    ends: Ends,
) -> Result<Option<usize>, Refusal>
    ensures { Asking
        (network_in network.now)
        book t ends.start ends.goal
        (said_asked result) }
{
    may_start(&book, t, network, ends)
}
