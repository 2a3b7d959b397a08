// The floor book as it is lent (section 13 of the rules): one record of the caller's by `&mut`, changed by a
// thin admission and by a thin trolley over the steps by value (crate `admission`), or by `&`, for a thin
// question whether a move may go at a tick. Each takes the record out and calls its step, and the first two
// put back the record that the step answers. Nothing is decided here.
#![tactic(auto)]

ghost use Rattle.hall.specs.Floor.{network_in};
ghost use Rattle.admission.specs.Admission.{Admission, said_answer};
ghost use Rattle.admission.specs.Trolley.{said_ended, Ride};
ghost use Rattle.admission.specs.Asking.{Asking, said_asked};

use admission::ask::ask_step;
use admission::trolley::{Stop, ride};
use admission::{Entry, admit_step};
use hall::{Ends, Network, Refusal};
use slots::Book;

// An admission at the clock value `clock`, which the rules call now (in a contract `now` is what is lent):
// the start tick and the slot, or the refusal, which leaves the book as it came.
pub fn admit(book: &mut Book, clock: u32, network: &Network, ends: Ends) -> Result<Entry, Refusal>
    ensures { Admission
        (network_in network.now)
        book.old clock ends.start ends.goal
        (said_answer result) book.new }
{
    let done = admit_step(*book, clock, network, ends);
    *book = done.book;
    done.answer
}

// A trolley of moves, a start and a goal by turns, at the clock value `clock`: how it ended. `ticks`, which
// has 64 places or more, gets the start tick of each move that was admitted at the place with the move's
// number.
pub fn admit_all(
    book: &mut Book,
    clock: u32,
    network: &Network,
    moves: &[u16],
    ticks: &mut [u32],
) -> Result<(), Stop>
    ensures { Ride
        (network_in network.now)
        book.old clock
        moves.now ticks.old
        (said_ended result) book.new ticks.new }
{
    let rode = ride(*book, clock, network, moves, ticks);
    *book = rode.book;
    rode.ended
}

// Whether a move may start at the tick t: the lowest slot that forbids it, if one does. Nothing is changed.
pub fn may_start(
    book: &Book,
    t: u32,
    network: &Network,
    ends: Ends,
) -> Result<Option<usize>, Refusal>
    ensures { Asking
        (network_in network.now)
        book.now t ends.start ends.goal
        (said_asked result) }
{
    ask_step(*book, t, network, ends)
}
