// Start ticks and cost by a distance table (rule 9.8), an order and a dwell (rules 5.1 to 5.5). A network is
// not asked for: the table may hold any numbers, as long as it has its least length. An input that is not
// served leaves the ticks as they came. Two steps can be asked for by themselves: `gather` holds the placed
// carriers against a new one, listed or not, and `cost` adds up goal ticks. Places of the order and carrier
// numbers have a type each, since both go into one function here and neither may be used for the other (rule
// 3.9).
//
// Work for k carriers: the one at place q is tested against the q before it, q (q + 1) pair tests at most
// (see crate rule), so less than k³ / 3 in all. That is 87,360 for 64 carriers at most, and far fewer where
// few stretches overlap.
#![tactic(auto)]

ghost use Rattle.std.specs.Prelude.{◌≡◌, ◌≤◌, ◌<◌, min, length, get_or};
ghost use Rattle.hall.specs.Limits.{carrier_limit, dwell_limit, table_length};
ghost use Rattle.hall.specs.Rule.{Answers};
ghost use Rattle.hall.specs.Ticks.{pair_of, goal_tick, cost_of};
ghost use Rattle.hall.specs.Plan.{tables_in};
ghost use Rattle.rule.specs.Held.{pair_in};
ghost use Rattle.ticks.specs.Timing.{OrderServed, TicksServed, Timing, said_timed};
ghost use Rattle.ticks.specs.Gathering.{GatherServed, Gathering};
ghost use Rattle.ticks.specs.Steps.{Early, PlacedNext, PlacedTo};

use hall::{Carrier, Job, Place};
use network::entries::{Entries, check_each};
use rule::{Held, Pair, first_tick, hold};

// The pair of carriers i and j, with the distances of the table.
fn pair_of(table: &[u16], i: Carrier, j: Carrier) -> Pair
    requires { (table_length ≤ length table.now) × (i.0 < carrier_limit) × (j.0 < carrier_limit) }
    ensures { pair_in result ≡ pair_of (tables_in table.now) i.0 j.0 }
{
    let distance = |block: usize, from: Carrier, to: Carrier| {
        table[block + (Job::CARRIERS * from.0 as usize + to.0 as usize)] as u32
    };
    Pair {
        ss: distance(0, i, j),
        gg: distance(2 * Job::BLOCK, i, j),
        ii: distance(Job::BLOCK, i, i),
        jj: distance(Job::BLOCK, j, j),
        ij: distance(Job::BLOCK, i, j),
        ji: distance(Job::BLOCK, j, i),
    }
}

// Whether the carriers before a place can be gathered: the table has its three blocks, the new carrier has a
// number that a job can have, the order and the held list have so many places, and each entry before the
// place is a carrier number that a job can have and that has a tick.
fn gather_served(
    table: &[u16],
    order: &[u16],
    timed: usize,
    q: Place,
    new: Carrier,
    room: usize,
) -> bool
    ensures { Answers result (GatherServed table.now order.now timed q.0 new.0 room) }
{
    let end = q.0;
    if table.len() < Job::TABLE
        || new.0 as usize >= Job::CARRIERS
        || end > order.len()
        || end > room
    {
        return false;
    }
    order[..end].iter().all(|placed| {
        let number = *placed as usize;
        number < Job::CARRIERS && number < timed
    })
}

// The carriers at the places before q, each held with its tick and its pair with the new carrier, which need
// not stand in the order. Whether they were gathered: what is not served changes nothing.
pub fn gather(
    table: &[u16],
    order: &[u16],
    ticks: &[u32],
    q: Place,
    new: Carrier,
    held: &mut [Held],
) -> bool
    ensures { Gathering table.now order.now ticks.now q.0 new.0 held.old held.new result }
{
    if !gather_served(table, order, ticks.len(), q, new, held.len()) {
        return false;
    }
    for p in 0..q.0 {
        let placed = Place(p).carrier(order);
        let tick = ticks[placed.0 as usize];
        let pair = pair_of(table, placed, new);
        hold(held, Place(p), tick, pair);
    }
    true
}

// The carrier at place q gets the smallest tick that the carriers placed before it permit. The tick is
// written at the carrier's number.
fn place_next(table: &[u16], order: &[u16], dwell: u32, q: Place, ticks: &mut [u32])
    requires { OrderServed table.now order.now (length ticks.old)
        × (q.0 < length order.now)
        × Early order.now ticks.old q.0
        × (dwell ≤ dwell_limit) }
    ensures { PlacedNext dwell table.now order.now ticks.old ticks.new q.0 }
{
    let p = q.0;
    let new = q.carrier(order);
    let mut held = [Held::default(); Job::CARRIERS];
    gather(table, order, ticks, q, new, &mut held);
    let tick = first_tick(&held[..p], dwell, 0);
    let j = new.0 as usize;
    ticks[j] = tick as u32;
}

// Every carrier gets its start tick, in the order's turn.
fn place_all(table: &[u16], order: &[u16], dwell: u32, ticks: &mut [u32])
    requires { OrderServed table.now order.now (length ticks.old) × (dwell ≤ dwell_limit) }
    ensures { PlacedTo dwell table.now order.now ticks.old ticks.new (length order.now) }
{
    for q in 0..order.len() {
        place_next(table, order, dwell, Place(q), ticks);
    }
}

// The goal tick of a carrier. A number past the end of the table or of the ticks counts 0.
fn goal_tick(table: &[u16], ticks: &[u32], i: usize) -> u64
    requires { i < carrier_limit }
    ensures { result ≡ goal_tick (tables_in table.now) (λ j. get_or ticks.now j 0) i }
{
    let own = Job::BLOCK + (Job::CARRIERS * i + i);
    let distance = table.get(own).copied().unwrap_or(0);
    let tick = ticks.get(i).copied().unwrap_or(0);
    tick as u64 + distance as u64
}

// The sum of the goal ticks of the first k carriers, 64 of them at most. It takes every table and every list
// of ticks: a number past the end of one counts 0.
pub fn cost(table: &[u16], k: usize, ticks: &[u32]) -> u64
    ensures { result ≡ cost_of (tables_in table.now) (λ i. get_or ticks.now i 0) (min k carrier_limit) }
{
    let mut sum: u64 = 0;
    for i in 0..k.min(Job::CARRIERS) {
        sum += goal_tick(table, ticks, i);
    }
    sum
}

// Whether the table has its three blocks, the order lists different carrier numbers below its length, no more
// than a job can have, the dwell is one that a job can have, and there is room for a tick of each carrier
// that a job can have.
fn served(table: &[u16], order: &[u16], dwell: usize, room: usize) -> bool
    ensures { Answers result (TicksServed table.now order.now dwell room) }
{
    let count = order.len();
    if table.len() < Job::TABLE
        || count > Job::CARRIERS
        || room < Job::CARRIERS
        || dwell > Job::DWELL
    {
        return false;
    }
    // Of an order neither nodes nor closed nodes are asked for: any number and any list can stand for them.
    check_each(Entries::Places, 0, count, order, order).is_ok()
}

// The start ticks by carrier number, and the cost. What is not served changes nothing.
pub fn start_ticks(table: &[u16], order: &[u16], dwell: usize, ticks: &mut [u32]) -> Option<u32>
    ensures { Timing table.now order.now dwell ticks.old ticks.new (said_timed result) }
{
    if !served(table, order, dwell, ticks.len()) {
        return None;
    }
    place_all(table, order, dwell as u32, ticks);
    let sum = cost(table, order.len(), ticks);
    Some(sum as u32)
}
