// The rows of distances of a move, and by them the pair that it makes with a slot. A free slot makes one with
// the mark for "no walk" in the place of the distance between the starts, and so forbids nothing: its zeros
// would be a carrier that stands on node 0 at tick 0.
ghost use Rattle.std.specs.Prelude.{◌≡◌, ◌<◌, replicate};
ghost use Rattle.hall.specs.Limits.{node_limit};
ghost use Rattle.slots.specs.Record.{slot_is_free};
ghost use Rattle.rule.specs.Held.{pair_in};
ghost use Rattle.admission.specs.Steps.{starts_for, pair_for};

use hall::Job;
use rule::Pair;
use slots::{Slot, is_free};

// The distances of every node from the start of a move, and from its goal.
#[derive(Clone, Copy)]
pub struct Rows {
    pub outward: [u16; Job::NODES],
    pub inward: [u16; Job::NODES],
}

impl Rows {
    // Room for the rows of any move.
    pub fn blank() -> Self
        ensures { result ≡ record { outward = replicate node_limit 0; inward = replicate node_limit 0 } }
    {
        Rows {
            outward: [0; Job::NODES],
            inward: [0; Job::NODES],
        }
    }
}

// The distance between the starts, or the mark for "no walk" at a free slot.
fn starts_for(slot: Slot, between: u16) -> u16
    ensures { result ≡ starts_for (slot_is_free slot) between }
{
    if is_free(slot) {
        return Job::NO_WALK;
    }
    between
}

// The pair of a slot and a move with its own distance and its rows.
#[tactic(auto, unfolding(crate::specs::Steps::pair_for))]
pub(crate) fn pair_for(slot: Slot, own: u16, rows: &Rows) -> Pair
    requires { (slot.start < node_limit) × (slot.goal < node_limit) }
    ensures { pair_in result ≡ pair_for rows.now own slot }
{
    let start = slot.start as usize;
    let goal = slot.goal as usize;
    Pair {
        ss: starts_for(slot, rows.outward[start]) as u32,
        gg: rows.inward[goal] as u32,
        ii: slot.distance as u32,
        jj: own as u32,
        ij: rows.inward[start] as u32,
        ji: rows.outward[goal] as u32,
    }
}
