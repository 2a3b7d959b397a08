// Paths of one move on a lane network (rules 6.1 to 6.8): the house path, the question about one list, and
// the choice between two lists. Any network, move and list may be put. A network or a move that is at fault
// is refused with its number and place; the choice answers an empty part then. All three go by the distances
// to the goal, so that a walk of the right form which is not shortest never passes. The same row tells which
// nodes a path may stand on: a closed node has no walk to the goal, so the mark stands at its place.
//
// Cost: one distance walk a question (two for the choice); the house path looks at each lane once for each of
// its nodes, and the question about one list at the lanes up to the one that it needs for each of its steps,
// if the list has the right length. No number of a list is looked up among the closed nodes.
#![tactic(auto)]

ghost use Rattle.std.specs.Prelude.{◌≡◌, List, ℕ, ◌≤◌, length};
ghost use Rattle.hall.specs.Limits.{node_limit};
ghost use Rattle.hall.specs.Floor.{Lane, network_of, network_in};
ghost use Rattle.hall.specs.Rule.{Answers};
ghost use Rattle.path.specs.Paths.{HouseAnswer, ListAnswer, ChoiceAnswer};
ghost use Rattle.path.specs.Steps.{Downhill, MoveReached, Nearer, LowestNext, Laid, Walks, AllOnWay};

use hall::{Ends, Fault, Job, Network, Refusal};

// The checks of a move: 2, 3, 12, 4, 5, 13 and 8. Where none holds, the row has each node's distance to the
// goal. It is lent: handed back by value it would be copied twice.
fn check_reached(network: &Network, ends: Ends, row: &mut [u16]) -> Result<(), Refusal>
    requires { length row.old ≡ node_limit }
    ensures { MoveReached (network_in network.now) ends.start ends.goal row.new result }
{
    network::checks::check_move(network, ends)?;
    walk::distances(network, ends.goal, row);
    if row[ends.start as usize] == Job::NO_WALK {
        return Err(Refusal::new(Fault::Unreachable, 0));
    }
    Ok(())
}

// One end of a lane, seen from node u: if the lane leads from u to a node b at the wanted distance, the lower
// of b and the best so far. The row has a place for each node.
fn nearer(row: &[u16], u: u16, a: u16, b: u16, wanted: u16, best: Option<u16>) -> Option<u16>
    ensures { Nearer (length row.now) row.now u a b wanted best result }
{
    if a != u || row.get(b as usize).copied() != Some(wanted) {
        return best;
    }
    Some(best.unwrap_or(b).min(b))
}

// The lowest-numbered neighbour of u at the wanted distance from the goal, if there is one. It is compiled as a
// function of its own, which takes less time than its loop does within another.
#[inline(never)]
fn next_node(lanes: &[u16], row: &[u16], u: u16, wanted: u16) -> Option<u16>
    ensures { LowestNext (length row.now) lanes.now row.now u wanted result }
{
    let mut best = None;
    for k in 0..lanes.len() / 2 {
        let a = lanes[2 * k];
        let b = lanes[2 * k + 1];
        best = nearer(row, u, a, b, wanted, best);
        best = nearer(row, u, b, a, wanted, best);
    }
    best
}

// The house path, from the start on until the goal; how many nodes it has. Places past its end are not
// touched. The row has a place for each node, and it alone tells which of them are closed.
fn lay(lanes: &[u16], row: &[u16], ends: Ends, path: &mut [u16]) -> usize
    requires { (closed : List ℕ)
        × Downhill (network_of (length row.now) lanes.now closed) ends.start ends.goal row.now
        × (node_limit ≤ length path.old) }
    ensures { (closed : List ℕ)
        → Downhill (network_of (length row.now) lanes.now closed) ends.start ends.goal row.now
        → Laid (network_of (length row.now) lanes.now closed)
        ends.start ends.goal
        path.old path.new
        result }
{
    let mut left = row[ends.start as usize];
    let mut u = ends.start;
    let mut at = 0;
    path[0] = u;
    while u != ends.goal {
        left -= 1;
        at += 1;
        u = next_node(lanes, row, u, left).unwrap();
        path[at] = u;
    }
    at + 1
}

// The house path of a move, into a list of 1,024 places at least; past its end they become zero. The answer
// is how many nodes it has.
pub fn house(network: &Network, ends: Ends, path: &mut [u16]) -> Result<usize, Refusal>
    ensures { HouseAnswer
        (network_in network.now)
        (network_in network.now)
        ends.start ends.goal
        path.old path.new
        result }
{
    if path.len() < Job::NODES {
        return Err(Refusal::new(Fault::ShortTable, 0));
    }
    hall::zero::fill_first(path, Job::NODES, 0);
    let mut row = [0; Job::NODES];
    check_reached(network, ends, &mut row)?;
    let count = lay(network.lanes, &row[..network.nodes], ends, path);
    Ok(count)
}

// Whether a lane joins a and b.
fn joined(lanes: &[u16], a: u16, b: u16) -> bool
    ensures { Answers result (Lane lanes.now a b) }
{
    for k in 0..lanes.len() / 2 {
        let pair = (lanes[2 * k], lanes[2 * k + 1]);
        if pair == (a, b) || pair == (b, a) {
            return true;
        }
    }
    false
}

// Whether the list leads from start to goal: its first number is the start, its last the goal, and lanes lead
// from each to the next; whether its nodes are open is not asked.
fn walks(lanes: &[u16], ends: Ends, list: &[u16]) -> bool
    ensures { Answers result (Walks lanes.now ends.start ends.goal list.now) }
{
    list.first().copied() == Some(ends.start)
        && list.last().copied() == Some(ends.goal)
        && list.windows(2).all(|step| joined(lanes, step[0], step[1]))
}

// Whether each number of the list is a node with a walk to the goal, by the row of distances, which has a place
// for each node: no such node is closed.
fn all_on_way(row: &[u16], list: &[u16]) -> bool
    ensures { Answers result (AllOnWay (length row.now) row.now list.now) }
{
    list.iter().all(|node| row
        .get(*node as usize)
        .is_some_and(|distance| *distance != Job::NO_WALK))
}

// Whether a proposed list is one of a move's shortest paths. It is refused with 11 exactly if it is none,
// whoever made it; a list that stands on a closed node is none.
pub fn judge(network: &Network, ends: Ends, list: &[u16]) -> Result<(), Refusal>
    ensures { ListAnswer
        (network_in network.now)
        (network_in network.now)
        ends.start ends.goal
        list.now list.now
        result }
{
    let mut reached = [0; Job::NODES];
    check_reached(network, ends, &mut reached)?;
    let row = &reached[..network.nodes];
    let whole = row[ends.start as usize] as usize + 1;
    if list.len() == whole && all_on_way(row, list) && walks(network.lanes, ends, list) {
        return Ok(());
    }
    Err(Refusal::new(Fault::NotShortest, 0))
}

// Takes the own list where it is a shortest path of the move, the spare where only that is one, and where
// neither is, an empty part. The answer is the lent list itself (rules 6.5 and 6.6).
pub fn choose<'a>(network: &Network, ends: Ends, own: &'a [u16], spare: &'a [u16]) -> &'a [u16]
    ensures { ChoiceAnswer
        (network_in network.now)
        (network_in network.now)
        ends.start ends.goal
        own.entry own.exit
        spare.entry spare.exit
        result }
{
    if judge(network, ends, own).is_ok() {
        return own;
    }
    if judge(network, ends, spare).is_ok() {
        return spare;
    }
    &own[..0]
}
