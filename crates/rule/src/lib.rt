// The pair rule (rules 4.1 to 4.9) on plain numbers, and the first tick that it leaves free (rules 5.2 and
// 5.3) against a list of held carriers. Nothing here refuses: every number of the types is served, and a
// carrier for which the list has no place is not written, which the answer says. The sums are made in u64,
// where none of them can overflow: no tick comes up that is later than `latest_tick` (specs/Reach.antt). The
// dwell is a number among the others: one function serves every dwell, 0 too.
//
// Work of `first_tick` against k held carriers: a carrier moves the tick at most once, since it permits every
// tick after the move. So at most k rounds change the tick, one more changes nothing, and each makes k pair
// tests: k (k + 1) tests at most, 4,032 for the 63 carriers before the last one of a job. That the rounds are
// so few is proved: it is the measure of the loop (proofs/Work.antt).
#![tactic(auto)]

ghost use Rattle.std.specs.Prelude.{◌≤◌, pos, ◌-ℤ◌, length};
ghost use Rattle.hall.specs.Rule.{Forbidden, Permitted, Excepted⁺, Answers};
ghost use Rattle.hall.specs.Ticks.{SmallestFrom, PermittedBy};
ghost use Rattle.rule.specs.Held.{pair_in, held_pair, held_tick, Holding};
ghost use Rattle.rule.specs.Reach.{latest_tick, RoundMade};

use hall::{Job, Place};

// The six distances of a pair (rule 4.2): i is earlier in the order, j later.
#[derive(Clone, Copy, Default)]
pub struct Pair {
    // Between the two starts, and between the two goals.
    pub ss: u32,
    pub gg: u32,
    // The carriers' own.
    pub ii: u32,
    pub jj: u32,
    // From i's start to j's goal, and from j's start to i's goal.
    pub ij: u32,
    pub ji: u32,
}

// A held carrier: its start tick, and its pair with the new one.
#[derive(Clone, Copy, Default)]
pub struct Held {
    pub tick: u32,
    pub pair: Pair,
}

// Whether the exception holds where i starts at ti and j at tj, with additions only (rule 4.8).
fn excepted(pair: Pair, ti: u32, tj: u64) -> bool
    requires { tj ≤ latest_tick }
    ensures { Answers result (Excepted⁺ (pair_in pair) ti tj) }
{
    let starts_goals = pair.ss as u64 + pair.gg as u64;
    let owns = pair.ii as u64 + pair.jj as u64;
    let at_low = ti as u64 + pair.ij as u64 == tj + pair.jj as u64;
    let at_high = tj + pair.ji as u64 == ti as u64 + pair.ii as u64;
    let parity = (ti as u64 + tj + pair.ss as u64) % 2;
    starts_goals == owns && (at_low || at_high) && parity == 1
}

// Whether the rule forbids that i starts at ti and j at tj, with additions only. All sums are made before the
// tests; the mark for "no walk" between the starts is tested first, and then none of them decides (rule 4.5).
// The exception is looked at without dwell only.
fn forbidden(pair: Pair, dwell: u32, ti: u32, tj: u64) -> bool
    requires { tj ≤ latest_tick }
    ensures { Answers result (Forbidden dwell (pair_in pair) (pos tj -ℤ pos ti)) }
{
    let starts_goals = pair.ss as u64 + pair.gg as u64;
    let owns = pair.ii as u64 + pair.jj as u64;
    let low = ti as u64 + pair.ij as u64;
    let low_end = tj + pair.jj as u64 + dwell as u64;
    let high = tj + pair.ji as u64;
    let high_end = ti as u64 + pair.ii as u64 + dwell as u64;
    if pair.ss == Job::NO_WALK as u32 || starts_goals > owns || low > low_end || high > high_end {
        return false;
    }
    dwell > 0 || !excepted(pair, ti, tj)
}

// Whether the rule forbids that i starts at tick ti and j at tick tj, where carriers have that dwell.
pub fn forbids(pair: Pair, dwell: u32, ti: u32, tj: u32) -> bool
    ensures { Answers result (Forbidden dwell (pair_in pair) (pos tj -ℤ pos ti)) }
{
    forbidden(pair, dwell, ti, tj as u64)
}

// The smallest tick from a given one up that a single held carrier permits, in one jump past its stretch.
// The stretch's upper end is free already where the exception holds there (rule 4.8).
fn free_from(held: Held, dwell: u32, from: u64) -> u64
    requires { from ≤ latest_tick }
    ensures smallest { SmallestFrom
        from
        (λ x. Permitted dwell (pair_in held.pair) (pos x -ℤ pos held.tick))
        result }
    ensures within { result ≤ latest_tick }
{
    let Held { tick, pair } = held;
    if !forbidden(pair, dwell, tick, from) {
        return from;
    }
    let last = tick as u64 + pair.ii as u64 + dwell as u64 - pair.ji as u64;
    if dwell == 0 && excepted(pair, tick, last) {
        return last;
    }
    last + 1
}

// One round of the held carriers: each moves the tick on to the first that it permits.
fn round(held: &[Held], dwell: u32, from: u64) -> u64
    requires { from ≤ latest_tick }
    ensures { RoundMade dwell held.now from result }
{
    let mut tick = from;
    for carrier in held {
        tick = free_from(*carrier, dwell, tick);
    }
    tick
}

// The smallest tick from a given one up that every held carrier permits, where all have that dwell.
pub fn first_tick(held: &[Held], dwell: u32, from: u32) -> u64
    ensures { SmallestFrom
        from
        (PermittedBy dwell (length held.now) (held_pair held.now) (held_tick held.now))
        result }
{
    let mut tick = from as u64;
    let mut next = round(held, dwell, tick);
    while tick < next {
        tick = next;
        next = round(held, dwell, tick);
    }
    tick
}

// Writes a carrier at its place in the held list: its start tick, then its pair with the new one. Whether it
// was written: where the list has no such place, nothing changes.
pub fn hold(held: &mut [Held], place: Place, tick: u32, pair: Pair) -> bool
    ensures { Holding held.old held.new place.0 tick (pair_in pair) result }
{
    let p = place.0;
    if p >= held.len() {
        return false;
    }
    held[p] = Held { tick, pair };
    true
}
