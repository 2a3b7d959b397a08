// May it go at this tick (rules 13.25 and 13.26): one move and one tick asked of a book by value, which does
// not change. The checks are those of an admission, with the tick for now, and without 15: a full book can be
// asked. Whoever is past at the tick is left out, and of the others the search ends at the first that forbids
// it.
//
// Cost: the walks of an admission, two for the move and for 17 one for each different start of those judged.
ghost use Rattle.std.specs.Prelude.{◌<◌, pos, ◌-ℤ◌};
ghost use Rattle.hall.specs.Limits.{node_limit};
ghost use Rattle.hall.specs.Floor.{network_in};
ghost use Rattle.hall.specs.Rule.{Forbidden, Answers};
ghost use Rattle.admission.specs.Asking.{Asking, said_asked};
ghost use Rattle.admission.specs.Steps.{pair_for, OnRows, LowestBlocking};

use crate::checks::check_call;
use crate::rows::{Rows, pair_for};
use hall::{Ends, Network, Refusal};
use rule::forbids;
use slots::{Book, Slot, forget};

// Whether a slot forbids a move with these rows to start at the tick. A free one does not.
fn blocks(slot: Slot, own: u16, rows: &Rows, dwell: u32, t: u32) -> bool
    requires { (slot.start < node_limit) × (slot.goal < node_limit) }
    ensures { Answers result
        (Forbidden dwell (pair_for rows.now own slot) (pos t -ℤ pos slot.tick)) }
{
    let pair = pair_for(slot, own, rows);
    forbids(pair, dwell, slot.tick, t)
}

// The lowest slot that forbids it, if one does.
fn lowest_blocking(book: &Book, own: u16, rows: &Rows, t: u32) -> Option<usize>
    requires { OnRows book.now.slots }
    ensures { LowestBlocking rows.now own book.now.dwell t book.now.slots result }
{
    for i in 0..Book::SLOTS {
        if blocks(book.slots[i], own, rows, book.dwell, t) {
            return Some(i);
        }
    }
    None
}

// Whether the move may start at the tick t: it may where no slot forbids it, and otherwise the lowest one that
// does is answered.
pub fn ask_step(book: Book, t: u32, network: &Network, ends: Ends) -> Result<Option<usize>, Refusal>
    ensures { Asking (network_in network.now) book t ends.start ends.goal (said_asked result) }
{
    let mut rows = Rows::blank();
    check_call(&book, t, network, ends, &mut rows)?;
    let standing = forget(&book, t);
    let distance = rows.outward[ends.goal as usize];
    let slot = lowest_blocking(&standing, distance, &rows, t);
    Ok(slot)
}
