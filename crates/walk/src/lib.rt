// The distance walk: from one source, the distance of every node, or the mark 65,535 where there is no
// walk (rules 2.5 to 2.8). A closed node is in no walk, and from a closed source there is none. It answers
// false for more than 1,024 nodes, a source that is no node and a row with fewer places than nodes, and
// then leaves the row as it came. It serves every lane list, sorted or not and of any length: a lane with
// an end that is no node takes part in no walk, and an odd last number is no lane. It serves every list
// of closed nodes too: an entry that is no node closes nothing. It sweeps the lane list, there and back by
// turns, and at each lane lets the higher label fall to one more than the lower. A label is the length of
// some walk or one of two marks all the time: 65,534 at an open node that is not reached yet, and 65,535
// at a closed one, which never falls. It ends when the next sweep has no lane, as after a sweep in which no
// label fell: then no lane lets a label fall, and each label is a distance or a mark. What is not reached
// gets 65,535 last. The promise of `distances` names no sweep: it speaks of walks and their lengths alone.
//
// Where there are many lanes a node, sweeps alone let a label fall again and again, and a processor
// foresees no fall. So in a dense hall, with a clean list of three lanes a node or more, rounds go first.
// Round d, from 0 on, looks only at lanes whose labels have the sum 65,534 + d: one end has the label d and
// the other is not reached, and its label falls once, to its distance; or an end is closed, and none falls.
// Rounds save time and nothing else: labels fall in them as in sweeps, and the sweeps that follow end the
// walk in any case.
//
// Cost: one step a number of the lane list, one an entry of the closed list and two a node beside rounds
// and sweeps. Whether a node is closed is seen in its label, and never looked up in the closed list.
// Neither a round nor a sweep looks at a lane twice. There are at most five rounds, and at most as many
// sweeps as nodes, which `reach` counts and promises. How many sweeps goes by the order of the lanes in the
// list. Sorted, as in a checked network, and where no node is closed, a line that is numbered along it and
// a grid that is numbered row by row take three at the most; a line of three nodes or more that is numbered
// in zigzag (n - 1, 0, n - 2, 1 and so on) takes as many as it has nodes, from its end n - 1. A sweep
// begins where a label fell last in the sweep before it, since the lanes behind that place let no label
// fall. The ends of the lanes are tested in the sweeps only where the list is not clean: its greatest
// number is no node.
//
// A round and a sweep are compiled as functions of their own: laid into the walk they take longer, and a plan in a
// dense hall a third more.
//
// Working memory: some twenty numbers, and no list. The row is the caller's.
#![tactic(auto)]

ghost use Rattle.std.specs.Prelude.{◌≤◌, ◌<◌, ◌≡◌, true, ℕ, length, get_or};
ghost use Rattle.hall.specs.Floor.{network_in, lanes_in};
ghost use Rattle.walk.specs.Row.{RowServed, RowFilled, Rowed};
ghost use Rattle.walk.specs.Sweep.{Shut, Settled};
ghost use Rattle.walk.specs.Sweep.{Greatest, Clean, Looked, OnlyFell, Sweepable, LanesSwept};

use hall::{Job, Network};

// The label of an open node that is not reached: above the length of every walk, below the mark of a closed
// node.
const UNREACHED: u16 = 65534;

// The most rounds that go before the sweeps.
const ROUNDS: usize = 5;

// A lane list with the greatest of its numbers, by which a walk sees whether both ends of every lane are nodes,
// and need not test them lane by lane.
#[derive(Clone, Copy)]
struct Lanes<'a> {
    list: &'a [u16],
    top: u16,
    ghost most: { (i : ℕ) → i < length list.now → get_or list.now i 0 ≤ top },
}

impl<'a> Lanes<'a> {
    fn of(list: &'a [u16]) -> Lanes<'a>
        ensures { result.list.now ≡ list.now }
    {
        Lanes {
            list,
            top: greatest(list),
        }
    }

    // Whether every number of the list is one of so many nodes.
    fn are_clean(&self, nodes: usize) -> bool
        ensures { Clean nodes self.now.list.now result }
    {
        (self.top as usize) < nodes
    }
}

// The places of the closed nodes get the mark for "no walk". An entry that is no node is passed over.
fn shut(closed: &[u16], row: &mut [u16])
    ensures { Shut (length row.old) closed.now row.old row.new }
{
    for &node in closed {
        let place = node as usize;
        if place < row.len() {
            row[place] = Job::NO_WALK;
        }
    }
}

// The open nodes that no sweep has reached get the mark for "no walk" too. Each label is written, whether it
// changes or not: a processor then takes several at a time.
fn settle(row: &mut [u16])
    ensures { Settled (length row.old) row.old row.new }
{
    for label in row.iter_mut() {
        *label = if *label == UNREACHED {
            Job::NO_WALK
        } else {
            *label
        };
    }
}

// The greatest number of a list, 0 of an empty one.
fn greatest(numbers: &[u16]) -> u16
    ensures { Greatest numbers.now result }
{
    numbers.iter().copied().max().unwrap_or(0)
}

// One look at a lane: where both ends are nodes, and their labels are two or more apart, the higher label
// falls to one more than the lower, if it is not that of a closed node. The answer is whether it fell. In a
// clean list the ends are not tested. A closed node lets no label fall either: none is two above its mark.
fn look(clean: bool, a: u16, b: u16, row: &mut [u16]) -> bool
    requires { (clean ≡ true → a < length row.old)
        × (clean ≡ true → b < length row.old) }
    ensures { Looked (length row.old) a b row.old row.new result }
{
    let first = a as usize;
    let second = b as usize;
    if !clean && (first >= row.len() || second >= row.len()) {
        return false;
    }
    let x = row[first];
    let y = row[second];
    if x.abs_diff(y) < 2 {
        return false;
    }
    if x < y {
        if y == Job::NO_WALK {
            return false;
        }
        row[second] = x + 1;
    } else {
        if x == Job::NO_WALK {
            return false;
        }
        row[first] = y + 1;
    }
    true
}

// One sweep. Going there it looks at the last `todo` lanes, in the order of the list; going back at the
// first `todo`, from the last of them to the first. The answer is how many lanes it had left out or looked
// at before the one at which a label fell last, 0 if none fell: these are the lanes of the next sweep,
// which goes the other way.
#[inline(never)]
fn sweep(lanes: &Lanes, back: bool, todo: usize, row: &mut [u16]) -> usize
    requires { Sweepable (length row.old) lanes.now.list.now back todo row.old }
    ensures { LanesSwept (length row.old) lanes.now.list.now back
        row.old row.new result }
{
    let clean = lanes.are_clean(row.len());
    let list = lanes.list;
    let count = list.len() / 2;
    let mut next: usize = 0;
    for rest in (0..todo).rev() {
        let done = count - 1 - rest;
        let k = if back { rest } else { done };
        let a = list[2 * k];
        let b = list[2 * k + 1];
        if look(clean, a, b, row) {
            next = done;
        }
    }
    next
}

// One round: a look at each lane whose two labels have this sum. The answer is how many labels fell. The list
// is clean.
#[inline(never)]
fn spread(lanes: &[u16], sum: usize, row: &mut [u16]) -> usize
    requires { Clean (length row.old) lanes.now true }
    ensures { OnlyFell (length row.old) lanes.now row.old row.new
        × (result ≤ lanes_in lanes.now) }
{
    let mut fell: usize = 0;
    for k in 0..lanes.len() / 2 {
        let a = lanes[2 * k];
        let b = lanes[2 * k + 1];
        let x = row[a as usize] as usize;
        let y = row[b as usize] as usize;
        if x + y == sum && look(true, a, b, row) {
            fell += 1;
        }
    }
    fell
}

// The rounds before the sweeps. There is none where the list is not clean or has fewer than three lanes a
// node, as a line and a grid have: there sweeps alone take less time. Nor is there another after one in
// which at most twice as many labels fell as in the one before: few nodes are then reached at a time, as in
// a grid with diagonals, and a round would look at all lanes for them.
fn spread_near(lanes: &Lanes, row: &mut [u16])
    ensures { OnlyFell (length row.old) lanes.now.list.now row.old row.new }
{
    if !lanes.are_clean(row.len()) || lanes.list.len() / 6 < row.len() {
        return;
    }
    let mut before: usize = 0;
    for far in 0..ROUNDS {
        let fell = spread(lanes.list, UNREACHED as usize + far, row);
        if fell <= 2 * before {
            return;
        }
        before = fell;
    }
}

// The distance walk itself, in a row with one place a node: rounds in a dense hall, then sweeps, there and
// back by turns, until the next one has no lane. The answer is how many sweeps there were; it stands in the
// promise, and no caller needs it.
fn reach(network: &Network, source: u16, row: &mut [u16]) -> usize
    requires { RowServed (network_in network.now) source row.old
        × (length row.old ≡ network.now.nodes) }
    ensures { RowFilled (network_in network.now) source
        row.old row.new
        × (result ≤ network.now.nodes) }
{
    let lanes = Lanes::of(network.lanes);
    let place = source as usize;
    row.fill(UNREACHED);
    shut(network.closed, row);
    if row[place] == UNREACHED {
        row[place] = 0;
    }
    spread_near(&lanes, row);
    let mut sweeps: usize = 0;
    let mut back = false;
    let mut todo = network.lanes.len() / 2;
    while todo > 0 {
        todo = sweep(&lanes, back, todo, row);
        back = !back;
        sweeps += 1;
    }
    settle(row);
    sweeps
}

// The distances from the source, one place of the row a node; whether they were worked out.
pub fn distances(network: &Network, source: u16, row: &mut [u16]) -> bool
    ensures { Rowed (network_in network.now) source
        row.old row.new result }
{
    let nodes = network.nodes;
    if nodes > Job::NODES || source as usize >= nodes || nodes > row.len() {
        return false;
    }
    reach(network, source, &mut row[..nodes]);
    true
}
