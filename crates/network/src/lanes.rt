// The check of a lane (rules 2.2 to 2.4 and 8.3): its ends are nodes, the lower one first, and it exceeds the
// lane before it. Lists of any length may be put; an odd last number is no lane, and a fault of the count
// (checks.rt).
ghost use Rattle.std.specs.Prelude.{◌/◌, ◌<◌, length};
ghost use Rattle.hall.specs.Rule.{Answers};
ghost use Rattle.hall.specs.Stages.{only_at};
ghost use Rattle.hall.specs.Said.{Judged};
ghost use Rattle.hall.specs.Refusals.{LaneFault};
ghost use Rattle.hall.specs.Questions.{each_lane};

use crate::checks::{number_at, refused};
use hall::{Fault, Refusal};

// 3, at the lane k of the list, if there is such a lane. The higher end alone is held against the node count,
// since the lower one is below it.
fn lane_fault(nodes: usize, lanes: &[u16], k: usize) -> bool
    ensures { Answers result
        ((k < length lanes.now / 2) × LaneFault nodes lanes.now k) }
{
    if k >= lanes.len() / 2 {
        return false;
    }
    let at = 2 * k;
    let low = number_at(lanes, at);
    let high = number_at(lanes, at + 1);
    if high <= low || high as usize >= nodes {
        return true;
    }
    if k == 0 {
        return false;
    }
    let low_before = number_at(lanes, at - 2);
    let high_before = number_at(lanes, at - 1);
    if low_before == low {
        return high_before >= high;
    }
    low_before > low
}

// 3, of the lane k: its ends are nodes, the first below the second, and it exceeds the one before.
pub fn check_lane(nodes: usize, lanes: &[u16], k: usize) -> Result<(), Refusal>
    ensures { Judged (only_at k (each_lane nodes lanes.now)) result }
{
    if lane_fault(nodes, lanes, k) {
        return refused(Fault::BadLane, k);
    }
    Ok(())
}
