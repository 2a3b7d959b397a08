// The start tick of a new carrier: the smallest tick from now up that every carrier held permits (rule 13.7).
// The slots go into the held list of `rule` as they stand, each with the pair that it makes with the move
// (rows.rt).
ghost use Rattle.admission.specs.Steps.{OnRows, TickFor};

use crate::rows::{Rows, pair_for};
use hall::Place;
use rule::{Held, first_tick, hold};
use slots::Book;

// The smallest tick from now up that every carrier held permits to a move with these rows.
pub(crate) fn first_for(book: &Book, from: u32, own: u16, rows: &Rows) -> u64
    requires { OnRows book.now.slots }
    ensures { TickFor rows.now own book.now.dwell from book.now.slots result }
{
    let mut held = [Held::default(); Book::SLOTS];
    for i in 0..Book::SLOTS {
        let slot = book.slots[i];
        hold(&mut held, Place(i), slot.tick, pair_for(slot, own, rows));
    }
    first_tick(&held, book.dwell, from)
}
