// One admission to the floor book (rules 13.4 to 13.8), as a step from a book to a book by value. Every book,
// clock value, network and move may be put. What is at fault is refused with its number, and the book that is
// answered is then the one that came. A trolley of them is in trolley.rt, and the record as it is lent in the
// crate `book`.
//
// Cost of an admission: two distance walks for the move, whose rows have its distances to and from every
// carrier held, and for 17 one walk for each different start of the carriers that are judged (stale.rt).
// Working memory: three rows of 1,024 distances and the held list of `rule`, 7,936 bytes, and beside them
// copies of the book, of 776 bytes each.
#![tactic(auto)]

pub mod ask;
mod checks;
mod rows;
mod stale;
mod tick;
pub mod trolley;

ghost use Rattle.std.specs.Prelude.{◌≡◌, true, ◌<◌, Ok, Err, set};
ghost use Rattle.hall.specs.Floor.{network_in};
ghost use Rattle.slots.specs.Record.{slot_count, book_with};
ghost use Rattle.admission.specs.Admission.{Admission, said_answer};
ghost use Rattle.admission.specs.Steps.{Settled, Settles};

use crate::checks::check_known;
use crate::rows::Rows;
use hall::{Ends, Fault, Network, Refusal};
use slots::{Book, Slot, forget, lowest_free};

// A carrier that is admitted: its start tick, and the slot that it takes.
#[derive(Drop)]
pub struct Entry {
    pub tick: u32,
    pub slot: usize,
}

// What an admission answers, when the carrier starts and where it is held, or why it is refused; and the book
// as it stands then.
#[derive(Drop)]
pub struct Stepped {
    pub answer: Result<Entry, Refusal>,
    pub book: Book,
}

// The answer that refuses, with the book as it came.
fn refusing(book: Book, refusal: Refusal) -> Stepped
    ensures { result ≡ record { answer = Err refusal; book = book } }
{
    Stepped {
        answer: Err(refusal),
        book,
    }
}

// The answer for a carrier that takes a slot of a book, with the book that stands then.
fn entered(book: Book, place: usize, carrier: Slot) -> Stepped
    requires { place < slot_count }
    ensures { result ≡ record {
      answer = Ok (record { tick = carrier.tick; slot = place });
      book = book_with book.clock book.dwell (set book.slots place carrier);
    } }
{
    let mut left = book.slots;
    left[place] = carrier;
    let entry = Entry {
        tick: carrier.tick,
        slot: place,
    };
    Stepped {
        answer: Ok(entry),
        book: Book::with_slots(book.clock, book.dwell, left),
    }
}

// An admission at the clock value `clock`, which the rules call now: in a contract `now` is what is lent.
// Where `known`, all that is asked of the book, the clock and the network is known to pass, as it is after an
// accepted admission at the same clock on the same network, and only the move is asked about.
pub(crate) fn admit_known(
    known: bool,
    book: Book,
    clock: u32,
    network: &Network,
    ends: Ends,
) -> Stepped
    requires { known ≡ true → Settled (network_in network.now) book clock }
    ensures { Admission
        (network_in network.now)
        book clock ends.start ends.goal
        (said_answer result.answer) result.book
        × Settles
        (network_in network.now)
        clock
        (said_answer result.answer) result.book }
{
    let mut rows = Rows::blank();
    let checked = check_known(known, &book, clock, network, ends, &mut rows);
    if let Err(refusal) = checked {
        return refusing(book, refusal);
    }
    let left = forget(&book, clock);
    let Some(place) = lowest_free(&left) else {
        return refusing(book, Refusal::new(Fault::NoSlot, 0));
    };
    let distance = rows.outward[ends.goal as usize];
    let tick = tick::first_for(&left, clock, distance, &rows) as u32;
    let carrier = Slot {
        start: ends.start,
        goal: ends.goal,
        distance,
        tick,
    };
    entered(left, place, carrier)
}

// An admission of which nothing is known.
pub fn admit_step(book: Book, clock: u32, network: &Network, ends: Ends) -> Stepped
    ensures { Admission
        (network_in network.now)
        book clock ends.start ends.goal
        (said_answer result.answer) result.book }
{
    admit_known(false, book, clock, network, ends)
}
