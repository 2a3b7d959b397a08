// The listed checks from numbers (rule 8.22): 2, then 3 of each lane, 12 of each closed node, 4, 5 and 13 of
// each move, then 7 of each place of the order. The check of a lane is in lanes.rt, that of a closed node in
// closed.rt, and the loop over the entries of a list in entries.rt. Each function answers the first fault of
// its stages, with its place, or that there is none. Lists of any length may be put. A lane and a move take
// two numbers each, a closed node and an order place one, and their counts come from the lists' lengths; the
// node count and the dwell are numbers of their own. An odd last number of a lane list is a fault of its
// count; an odd last number of a move list is no move and is ignored, since records come whole.
//
// The checks of one entry stand by themselves, so that a reader can ask them of what it has stored. An entry
// that is not there has no fault.
ghost use Rattle.std.specs.Prelude.{◌≡◌, ◌<◌, length, get_or, Err};
ghost use Rattle.hall.specs.Floor.{network_in};
ghost use Rattle.hall.specs.Job.{job_in};
ghost use Rattle.hall.specs.Rule.{Answers};
ghost use Rattle.hall.specs.Stages.{only_at};
ghost use Rattle.hall.specs.Said.{Judged};
ghost use Rattle.hall.specs.Refusals.{BadOrder-at};
ghost use Rattle.hall.specs.Questions.{counts, each_move, each_order_place};
ghost use Rattle.hall.specs.Questions.{network_question, moves_question, checks_question};
ghost use Rattle.hall.specs.Questions.{ends as ends_checks, move_ends};

use crate::closed::{check_closed_node, is_closed};
use crate::entries::first_refusal;
use crate::lanes::check_lane;
use hall::{Ends, Fault, Job, JobNumbers, Network, Place, Refusal};

// The refusal with a fault at a place.
pub(crate) fn refused(fault: Fault, place: usize) -> Result<(), Refusal>
    ensures { result ≡ Err (record { fault = fault; place = place }) }
{
    Err(Refusal::new(fault, place))
}

// 2: the counts of nodes, lanes, closed nodes, carriers and order places, and the dwell. The lanes' is the
// length of their list, which has two numbers a lane.
pub fn check_counts(
    nodes: usize,
    lane_numbers: usize,
    closed: usize,
    carriers: usize,
    order: usize,
    dwell: usize,
) -> Result<(), Refusal>
    ensures { Judged (counts nodes lane_numbers closed carriers order dwell) result }
{
    let fault = Fault::BadCount;
    if nodes < 1 || nodes > Job::NODES {
        return refused(fault, 0);
    }
    if lane_numbers / 2 > Job::LANES || lane_numbers % 2 == 1 {
        return refused(fault, 1);
    }
    if closed > Job::NODES {
        return refused(fault, 4);
    }
    if carriers > Job::CARRIERS {
        return refused(fault, 2);
    }
    if order != carriers {
        return refused(fault, 3);
    }
    if dwell > Job::DWELL {
        return refused(fault, 5);
    }
    Ok(())
}

// The number at a place of a list; 0 past its end.
pub(crate) fn number_at(list: &[u16], at: usize) -> u16
    ensures { result ≡ get_or list.now at 0 }
{
    list.get(at).copied().unwrap_or(0)
}

// 4, 5 and 13, of one move at the place i: its ends are nodes, differ and are not closed.
pub fn check_ends(nodes: usize, closed: &[u16], ends: Ends, i: usize) -> Result<(), Refusal>
    ensures { Judged (only_at i (ends_checks nodes closed.now (λ p. ends.start) (λ p. ends.goal))) result }
{
    let Ends { start, goal } = ends;
    if start as usize >= nodes || goal as usize >= nodes {
        return refused(Fault::NoNode, i);
    }
    if start == goal {
        return refused(Fault::SameEnds, i);
    }
    if is_closed(closed, start) || is_closed(closed, goal) {
        return refused(Fault::ClosedEnd, i);
    }
    Ok(())
}

// 4, 5 and 13, of the move i. No other move is looked at.
pub fn check_entry(nodes: usize, closed: &[u16], moves: &[u16], i: usize) -> Result<(), Refusal>
    ensures { Judged (only_at i (each_move nodes closed.now moves.now)) result }
{
    if i >= moves.len() / 2 {
        return Ok(());
    }
    let at = 2 * i;
    let start = number_at(moves, at);
    let goal = number_at(moves, at + 1);
    check_ends(nodes, closed, Ends { start, goal }, i)
}

// 7, at place p of the order, if it has such a place: the entry is no carrier's number, or stands earlier.
fn order_fault(carriers: usize, order: &[u16], p: usize) -> bool
    ensures { Answers result
        ((p < length order.now) × BadOrder-at carriers order.now p) }
{
    if p >= order.len() {
        return false;
    }
    let carrier = order[p];
    carrier as usize >= carriers || order[..p].contains(&carrier)
}

// 7, of one place of the order: its entry is a carrier's number, and stands at no earlier place.
pub fn check_place(carriers: usize, order: &[u16], place: Place) -> Result<(), Refusal>
    ensures { Judged (only_at place.0 (each_order_place carriers order.now)) result }
{
    let p = place.0;
    if order_fault(carriers, order, p) {
        return refused(Fault::BadOrder, p);
    }
    Ok(())
}

// A job up to its order's entries: its counts and its dwell (2), its lanes (3), its closed nodes (12), its
// moves one after the other (4, 5 and 13). Of the order only the length is looked at.
pub fn check_moves(job: &JobNumbers) -> Result<(), Refusal>
    ensures { Judged (moves_question (job_in job.now)) result }
{
    let Network {
        nodes,
        lanes,
        closed,
    } = job.network;
    let moves = job.moves;
    let carriers = moves.len() / 2;
    check_counts(
        nodes,
        lanes.len(),
        closed.len(),
        carriers,
        job.order.len(),
        job.dwell,
    )?;
    first_refusal(lanes.len() / 2, |k| check_lane(nodes, lanes, k))?;
    first_refusal(closed.len(), |k| check_closed_node(nodes, closed, k))?;
    first_refusal(carriers, |i| check_entry(nodes, closed, moves, i))
}

// A whole job: the same, then its order (7).
pub fn check_job(job: &JobNumbers) -> Result<(), Refusal>
    ensures { Judged (checks_question (job_in job.now)) result }
{
    check_moves(job)?;
    let carriers = job.moves.len() / 2;
    let order = job.order;
    first_refusal(order.len(), |p| check_place(carriers, order, Place(p)))
}

// A network alone: 2 (nodes, lanes, closed nodes), then 3, then 12. It is checked as the job on it that has
// no carriers, of which nothing more is asked that could fail.
pub fn check_network(network: &Network) -> Result<(), Refusal>
    ensures { Judged (network_question (network_in network.now)) result }
{
    check_moves(&JobNumbers {
        network: *network,
        moves: &[],
        order: &[],
        dwell: 0,
    })
}

// A network and one move, whose place is 0: 2, 3, 12, then 4, 5 and 13.
pub fn check_move(network: &Network, ends: Ends) -> Result<(), Refusal>
    ensures { Judged (move_ends (network_in network.now) ends.start ends.goal) result }
{
    check_network(network)?;
    check_ends(network.nodes, network.closed, ends, 0)
}
