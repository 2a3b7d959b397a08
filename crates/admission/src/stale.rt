// 17: whether a carrier held is as far from its goal as the book says, on the network that is lent. Only
// carriers whose last tick is the clock value or later are judged. One that is past is not: the hall may have
// changed since it went.
//
// A carrier is judged by the row of distances from its start. Carriers that come from one lift have one row,
// so there is one walk for each different start: the lowest slot with a start judges all that have it.
ghost use Rattle.std.specs.Prelude.{[], ◌∷◌, ◌+◌, ◌≤◌, ◌<◌, ◌≡◌, length, option_copied};
ghost use Rattle.hall.specs.Limits.{node_limit};
ghost use Rattle.hall.specs.Floor.{network_in};
ghost use Rattle.hall.specs.Rule.{Answers};
ghost use Rattle.hall.specs.Said.{Judged};
ghost use Rattle.slots.specs.Record.{slot_count};
ghost use Rattle.slots.specs.Refusals.{SomeBadSlot};
ghost use Rattle.admission.specs.Questions.{stale_slots};
ghost use Rattle.admission.specs.Steps.{StandsFrom, StandsBefore, StaleBy, LowestBy, Sieved};

use hall::{Fault, Job, Network, Refusal};
use slots::{Book, Slot, stands};

// Whether a slot with this start holds a carrier whose last tick is t or later.
fn stands_from(slot: Slot, start: u16, dwell: u32, t: u32) -> bool
    ensures { Answers result (StandsFrom dwell t start slot) }
{
    slot.start == start && stands(slot, dwell, t)
}

// Whether a slot before place i does.
fn judged_before(book: &Book, start: u16, t: u32, i: usize) -> bool
    requires { i ≤ slot_count }
    ensures { Answers result (StandsBefore book.now.dwell t book.now.slots start i) }
{
    let dwell = book.dwell;
    book.slots[..i]
        .iter()
        .any(|slot| stands_from(*slot, start, dwell, t))
}

// Whether a slot with this start holds a carrier whose last tick is t or later, and whose distance is not the
// one that the row from its start tells. Where its start is no node there is no row; where one of its ends is
// no open node there is no walk, and so no distance.
fn stale_by(row: Option<&[u16]>, start: u16, slot: Slot, dwell: u32, t: u32) -> bool
    ensures { Answers result (StaleBy (option_copied row.entry) start dwell t slot) }
{
    if !stands_from(slot, start, dwell, t) {
        return false;
    }
    let Some(row) = row else {
        return true;
    };
    let goal = slot.goal as usize;
    if goal >= row.len() {
        return true;
    }
    if row[goal] == slot.distance {
        return false;
    }
    true
}

// The lowest slot from a place on, and before another, that the row from this start tells to be stale, if
// there is one.
fn lowest_by(
    row: Option<&[u16]>,
    start: u16,
    book: &Book,
    t: u32,
    from: usize,
    end: usize,
) -> Option<usize>
    requires { end ≤ slot_count }
    ensures { LowestBy (option_copied row.entry) start book.now.dwell t book.now.slots from end result }
{
    for p in from..end {
        if stale_by(row, start, book.slots[p], book.dwell, t) {
            return Some(p);
        }
    }
    None
}

// One slot more: where it stands and none before it with its start does, all that stand and have its start
// are judged by one walk from there.
fn sieve(network: &Network, book: &Book, t: u32, i: usize, lowest: usize) -> usize
    requires { (network.now.nodes ≤ node_limit) × (i < lowest)
        × (¬ SomeBadSlot book.now.slots) × (length book.now.slots ≡ slot_count)
        × Sieved (network_in network.now) book.now.dwell t book.now.slots i lowest }
    ensures { Sieved (network_in network.now) book.now.dwell t book.now.slots (i + 1) result }
{
    let mut row: [u16; Job::NODES] = [0; Job::NODES];
    let slot = book.slots[i];
    if !stands(slot, book.dwell, t) {
        return lowest;
    }
    if judged_before(book, slot.start, t, i) {
        return lowest;
    }
    let served = walk::distances(network, slot.start, &mut row);
    let told = served.then_some(&row[..network.nodes]);
    lowest_by(told, slot.start, book, t, i, lowest).unwrap_or(lowest)
}

// 17, at the lowest slot. The loop ends when all slots below the lowest stale one that was found are judged.
pub(crate) fn check_held(network: &Network, book: &Book, t: u32) -> Result<(), Refusal>
    requires { (network.now.nodes ≤ node_limit) × (¬ SomeBadSlot book.now.slots)
        × (length book.now.slots ≡ slot_count) }
    ensures { Judged
        (stale_slots (network_in network.now) book.now.dwell t book.now.slots ∷ [])
        result }
{
    let mut lowest: usize = Book::SLOTS;
    let mut i: usize = 0;
    while i < lowest {
        lowest = sieve(network, book, t, i, lowest);
        i += 1;
    }
    if lowest < Book::SLOTS {
        return Err(Refusal::new(Fault::StaleSlot, lowest));
    }
    Ok(())
}
