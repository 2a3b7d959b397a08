// The checks of closed nodes (rules 2.7, 8.12 and 8.13): whether an entry of a list of them is sound, and
// whether a node stands in the list. Lists of any length may be put. Only what looks at single nodes asks
// `is_closed`, which goes through the list: the distance walk does not (crate `walk`).
ghost use Rattle.std.specs.Prelude.{◌<◌, length};
ghost use Rattle.hall.specs.Floor.{Closed};
ghost use Rattle.hall.specs.Rule.{Answers};
ghost use Rattle.hall.specs.Stages.{only_at};
ghost use Rattle.hall.specs.Said.{Judged};
ghost use Rattle.hall.specs.Refusals.{ClosedFault};
ghost use Rattle.hall.specs.Questions.{each_closed};

use crate::checks::refused;
use hall::{Fault, Refusal};

// Whether a node stands in a list of closed nodes, which need not rise. It goes through the whole list, in
// steps that can be done side by side: where a job is sound no entry is the node, and nothing would end it
// earlier.
pub fn is_closed(closed: &[u16], node: u16) -> bool
    ensures { Answers result (Closed closed.now node) }
{
    let mut stands = false;
    for entry in closed {
        stands |= *entry == node;
    }
    stands
}

// 12, at the entry k of the list, if there is such an entry.
fn closed_fault(nodes: usize, closed: &[u16], k: usize) -> bool
    ensures { Answers result
        ((k < length closed.now) × ClosedFault nodes closed.now k) }
{
    if k >= closed.len() {
        return false;
    }
    let node = closed[k];
    node as usize >= nodes || k > 0 && closed[k - 1] >= node
}

// 12, of the entry k: it is a node, and exceeds the one before.
pub fn check_closed_node(nodes: usize, closed: &[u16], k: usize) -> Result<(), Refusal>
    ensures { Judged (only_at k (each_closed nodes closed.now)) result }
{
    if closed_fault(nodes, closed, k) {
        return refused(Fault::BadClosed, k);
    }
    Ok(())
}
