// The floor book (rules 13.1 to 13.8): its record, by value, and what is seen of its slots alone: who is
// held, who is forgotten at a clock value, which slot is the lowest free one, and whether the record is
// damaged (16) or the clock value is refused (14). Every record may be put, with any numbers in it: sums
// are made in u64, where none of them can overflow. Networks and moves are not known here; an admission is
// one crate above (`admission`), and the record as it is lent in `book`.
//
// A record is built in one place, `Book::with_slots`, so that what a book holds beside its slots is said
// there and nowhere else.
#![tactic(auto)]

ghost use Rattle.std.specs.Prelude.{◌≡◌, length};
ghost use Rattle.hall.specs.Rule.{Answers};
ghost use Rattle.hall.specs.Said.{Judged};
ghost use Rattle.slots.specs.Record.{slot_count, slot_is_free, last_tick, StandsAt};
ghost use Rattle.slots.specs.Record.{book_with, empty_book, forgotten, book_at, AsFree};
ghost use Rattle.slots.specs.Refusals.{BadHeld, SomeBadSlot, Damaged};
ghost use Rattle.slots.specs.Questions.{book_question};

use hall::{Fault, Job, Refusal};

// A carrier held: its start, goal, distance and start tick. All zero means free, and nothing else does.
#[derive(Clone, Copy, PartialEq, Eq)]
pub struct Slot {
    pub start: u16,
    pub goal: u16,
    pub distance: u16,
    pub tick: u32,
}

// The book: its clock, how long its carriers stand on their goals, and its slots.
#[derive(Clone, Copy)]
pub struct Book {
    pub clock: u32,
    pub dwell: u32,
    pub slots: [Slot; Book::SLOTS],
}

impl Slot {
    pub fn free() -> Self
        ensures { result ≡ Rattle.slots.specs.Record.free }
    {
        Slot {
            start: 0,
            goal: 0,
            distance: 0,
            tick: 0,
        }
    }
}

impl Book {
    pub const SLOTS: usize = 64;

    // A later clock value is refused, with 14.
    pub const LAST_CLOCK: u32 = 4000000000;

    // A book that holds a carrier with a later start tick is damaged.
    pub const LAST_START: u32 = 4000200000;

    // The book with a clock, a dwell and slots.
    pub fn with_slots(clock: u32, dwell: u32, slots: [Slot; Book::SLOTS]) -> Self
        ensures { result ≡ book_with clock dwell slots }
    {
        Book {
            clock,
            dwell,
            slots,
        }
    }

    // A book that holds nobody, at clock 0, whose carriers will wait so long.
    pub fn empty(dwell: u32) -> Self
        ensures { result ≡ empty_book dwell }
    {
        let free = Slot::free();
        Book::with_slots(0, dwell, [free; Book::SLOTS])
    }
}

// ---- one slot

// Whether a slot is free: all its numbers are zero.
#[tactic(auto, unfolding(crate::specs::Record::slot_is_free))]
pub fn is_free(slot: Slot) -> bool
    ensures { result ≡ slot_is_free slot }
{
    slot == Slot::free()
}

// The last tick at which the carrier of a slot is on the floor: 34 bits hold it, whatever the slot holds.
pub fn last_tick(slot: Slot, dwell: u32) -> u64
    ensures { result ≡ last_tick dwell slot }
{
    let goal_tick = slot.tick as u64 + slot.distance as u64;
    goal_tick + dwell as u64
}

// Whether a slot holds a carrier whose last tick is t or later.
#[tactic(auto, using(crate::proofs::Slots::free_by, crate::proofs::Slots::taken_by))]
pub fn stands(slot: Slot, dwell: u32, t: u32) -> bool
    ensures { Answers result (StandsAt dwell t slot) }
{
    !is_free(slot) && last_tick(slot, dwell) >= t as u64
}

// Whether a slot holds a carrier whose numbers are none that a carrier can have. A distance is less than the
// number of nodes that a hall can have.
#[tactic(auto, using(crate::proofs::Slots::free_by, crate::proofs::Slots::taken_by))]
fn bad_slot(slot: Slot) -> bool
    ensures { Answers result (BadHeld slot) }
{
    if is_free(slot) {
        return false;
    }
    if slot.start as usize >= Job::NODES || slot.goal as usize >= Job::NODES {
        return true;
    }
    if slot.distance < 1 || slot.distance as usize >= Job::NODES {
        return true;
    }
    slot.start == slot.goal || slot.tick > Book::LAST_START
}

// A slot, free if its carrier's last tick is before the clock value.
#[tactic(auto, using(crate::proofs::Slots::forgotten_past, crate::proofs::Slots::forgotten_kept))]
fn kept(slot: Slot, dwell: u32, clock: u32) -> Slot
    ensures { result ≡ forgotten dwell clock slot }
{
    if last_tick(slot, dwell) < clock as u64 {
        return Slot::free();
    }
    slot
}

// ---- all slots

// The book at a clock value: each carrier whose last tick is before it is forgotten. That there are 64 slots
// is said here, since a function of another crate that has a book does not see it.
pub fn forget(book: &Book, clock: u32) -> Book
    ensures forgets { result ≡ book_at clock book.now }
    ensures so_many { length book.now.slots ≡ slot_count }
{
    let mut left = book.slots;
    for slot in &mut left {
        *slot = kept(*slot, book.dwell, clock);
    }
    Book::with_slots(clock, book.dwell, left)
}

// The lowest free slot, if there is one.
#[tactic(auto, using(crate::proofs::Slots::taken_by))]
pub fn lowest_free(book: &Book) -> Option<usize>
    ensures { AsFree book.now.slots result }
{
    for place in 0..Book::SLOTS {
        if is_free(book.slots[place]) {
            return Some(place);
        }
    }
    None
}

// Whether some carrier held has numbers that none can have.
fn bad_slots(book: &Book) -> bool
    ensures { Answers result (SomeBadSlot book.now.slots) }
{
    book.slots.iter().any(|slot| bad_slot(*slot))
}

// ---- the record

// Whether the record is damaged.
fn damaged(book: &Book) -> bool
    ensures { Answers result (Damaged book.now) }
{
    book.clock > Book::LAST_CLOCK || book.dwell as usize > Job::DWELL || bad_slots(book)
}

// 16, then 14: the record, and the clock value t.
pub fn check_book(book: &Book, t: u32) -> Result<(), Refusal>
    ensures judges { Judged (book_question book.now t) result }
    ensures so_many { length book.now.slots ≡ slot_count }
{
    if damaged(book) {
        return Err(Refusal::new(Fault::BadBook, 0));
    }
    if t < book.clock || t > Book::LAST_CLOCK {
        return Err(Refusal::new(Fault::BadClock, 0));
    }
    Ok(())
}
