// The distance table of a job (rule 9.8): start to start, start to goal and goal to goal, by carrier numbers.
// `fill` serves every lane list and every list of closed nodes; more than 1,024 nodes or 64 carriers, a start
// or goal that is no node and a table that is too short are not served, and the table is then as it came. A
// closed start or goal is served: no walk joins it to anything, so the mark stands there. A filled table
// tells which carrier is the lowest without a walk to its goal (rule 8.8): `first_unreached`. `measure` fills
// a table, looks for that carrier, and leaves the carriers' own distances in a list of theirs.
//
// Cost: one distance walk for each different node that is a start or a goal, 128 at the most. What a walk
// finds is copied to the rows of all carriers whose start or goal its node is.
#![tactic(auto)]

ghost use Rattle.std.specs.Prelude.{◌+◌, ◌≤◌, ◌<◌, length};
ghost use Rattle.hall.specs.Limits.{carrier_limit, table_length};
ghost use Rattle.hall.specs.Floor.{network_in};
ghost use Rattle.hall.specs.Job.{move_count};
ghost use Rattle.hall.specs.Rule.{Answers};
ghost use Rattle.tables.specs.Filling.{EachBelow, TableServed, Filling, TableFilled};
ghost use Rattle.tables.specs.Blocks.{RowCopied, RowsCopied, CameBefore, NodeFilled};
ghost use Rattle.tables.specs.Filling.{said_reach, Reaching};
ghost use Rattle.tables.specs.Measuring.{OwnCopied, said_tabled, Measuring};

use hall::zero::fill_first;
use hall::{Carrier, Job, Network};
use walk::distances;

// Whether every start and every goal is a node.
fn all_nodes(nodes: usize, moves: &[u16]) -> bool
    ensures { Answers result (EachBelow moves.now nodes) }
{
    let end = moves.len() / 2 * 2;
    moves[..end].iter().all(|&node| (node as usize) < nodes)
}

// Copies the row's distances at the starts (offset 0) or the goals (offset 1) of the moves to the table, from
// `base` on.
fn copy_row(row: &[u16], moves: &[u16], offset: usize, base: usize, table: &mut [u16])
    requires { (offset ≤ 1)
        × (base + move_count moves.now ≤ length table.old)
        × EachBelow moves.now (length row.now) }
    ensures { RowCopied row.now moves.now
        offset (move_count moves.now) base
        table.old table.new }
{
    for j in 0..moves.len() / 2 {
        let node = moves[2 * j + offset];
        table[base + j] = row[node as usize];
    }
}

// A row of distances from a node is copied to the table: in a block, to the row of each carrier whose row
// begins at the node. In block 0 a row begins at its carrier's start and is read at the starts, in block 1 it
// begins at the start and is read at the goals, and in block 2 it begins at the goal and is read at the
// goals.
fn copy_rows(row: &[u16], moves: &[u16], node: u16, block: usize, table: &mut [u16])
    requires { (block < 3)
        × (move_count moves.now ≤ carrier_limit)
        × (table_length ≤ length table.old)
        × EachBelow moves.now (length row.now) }
    ensures { RowsCopied row.now moves.now
        node block (move_count moves.now)
        table.old table.new }
{
    let from = block / 2;
    let to = (block + 1) / 2;
    for i in 0..moves.len() / 2 {
        if moves[2 * i + from] == node {
            let base = Job::BLOCK * block + Job::CARRIERS * i;
            copy_row(row, moves, to, base, table);
        }
    }
}

// The rows of all carriers whose start or goal is the node, by one walk.
fn fill_node(network: &Network, moves: &[u16], node: u16, table: &mut [u16])
    requires { TableServed (network_in network.now) moves.now (length table.old)
        × (node < network.now.nodes) }
    ensures { NodeFilled (network_in network.now)
        moves.now node
        table.old table.new }
{
    let mut row = [0u16; Job::NODES];
    distances(network, node, &mut row);
    copy_rows(&row, moves, node, 0, table);
    copy_rows(&row, moves, node, 1, table);
    copy_rows(&row, moves, node, 2, table);
}

// Whether the node is one of the first `end` numbers of the moves.
fn came_before(moves: &[u16], end: usize, node: u16) -> bool
    requires { end ≤ length moves.now }
    ensures { Answers result (CameBefore moves.now end node) }
{
    moves[..end].contains(&node)
}

// The rows of all carriers, over zeros in the least length. A node that came before, as a start or as a goal,
// has its rows already and gets no second walk.
fn fill_all(network: &Network, moves: &[u16], table: &mut [u16])
    requires { TableServed (network_in network.now) moves.now (length table.old) }
    ensures { TableFilled (network_in network.now)
        moves.now
        table.old table.new }
{
    fill_first(table, Job::TABLE, 0);
    let ends = moves.len() / 2 * 2;
    for x in 0..ends {
        let node = moves[x];
        if !came_before(moves, x, node) {
            fill_node(network, moves, node, table);
        }
    }
}

// The distances between the starts and goals of the moves; whether they were worked out.
pub fn fill(network: &Network, moves: &[u16], table: &mut [u16]) -> bool
    ensures { Filling (network_in network.now)
        moves.now
        table.old table.new result }
{
    let count = moves.len() / 2;
    if network.nodes > Job::NODES || count > Job::CARRIERS || table.len() < Job::TABLE {
        return false;
    }
    if !all_nodes(network.nodes, moves) {
        return false;
    }
    fill_all(network, moves, table);
    true
}

// Looks for the lowest of the carrier numbers below `carriers` without a walk, by the own distances of a
// table. A table of fewer than 12,288 numbers and more than 64 carriers are not served: nothing is looked at,
// and no carrier is answered.
pub fn first_unreached(table: &[u16], carriers: usize) -> Option<Carrier>
    ensures { Reaching table.now carriers (said_reach result) }
{
    if table.len() < Job::TABLE || carriers > Job::CARRIERS {
        return None;
    }
    for i in 0..carriers {
        let at = Job::BLOCK + (Job::CARRIERS * i + i);
        if table[at] == Job::NO_WALK {
            return Some(Carrier(i as u16));
        }
    }
    None
}

// Copies each carrier's own distance out of the table.
fn copy_own(table: &[u16], carriers: usize, distances: &mut [u16])
    requires { (table_length ≤ length table.now)
        × (carriers ≤ carrier_limit)
        × (carrier_limit ≤ length distances.old) }
    ensures { OwnCopied
        table.now
        carriers
        distances.old distances.new }
{
    for i in 0..carriers {
        distances[i] = table[Job::BLOCK + (Job::CARRIERS * i + i)];
    }
}

// Why moves are not measured: a carrier has no walk to its goal, the lowest such number; or what is asked is
// not served.
#[derive(Drop)]
pub enum Unmeasured {
    Lost(Carrier),
    Unserved,
}

// The distance table of the moves, and each carrier's own distance; or the lowest carrier without a walk, and
// the least lengths of both lists zero. What `fill` does not serve is not served, nor are fewer than 64
// distances: both lists are then as they came.
pub fn measure(
    network: &Network,
    moves: &[u16],
    table: &mut [u16],
    distances: &mut [u16],
) -> Result<(), Unmeasured>
    ensures { Measuring (network_in network.now)
        moves.now
        table.old table.new
        distances.old distances.new
        (said_tabled result) }
{
    let carriers = moves.len() / 2;
    if distances.len() < Job::CARRIERS {
        return Err(Unmeasured::Unserved);
    }
    if !fill(network, moves, table) {
        return Err(Unmeasured::Unserved);
    }
    fill_first(distances, Job::CARRIERS, 0);
    if let Some(carrier) = first_unreached(table, carriers) {
        let whole = Job::TABLE;
        fill_first(table, whole, 0);
        return Err(Unmeasured::Lost(carrier));
    }
    copy_own(table, carriers, distances);
    Ok(())
}
