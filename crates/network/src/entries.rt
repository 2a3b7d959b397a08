// The entries of a job's four lists, checked one after the other. Lanes, closed nodes, moves and places of
// the order differ in what is asked of an entry and in how many numbers it takes, and in nothing else: so the
// check of an entry is a parameter of the loop, which stands once, and where a list of any kind is put, so is
// its kind. Lists of any length may be put, and an entry that is not there has no fault.
ghost use Rattle.std.specs.Prelude.{[], ◌∷◌};
ghost use Rattle.hall.specs.Stages.{only_at};
ghost use Rattle.hall.specs.Said.{Judged};
ghost use Rattle.network.specs.Entries.{each_in, FirstRefusal};

use crate::checks::{check_entry, check_place};
use crate::closed::check_closed_node;
use crate::lanes::check_lane;
use hall::{Place, Refusal};

// Whose entries: a lane and a move have two numbers, a closed node and a place of the order have one.
#[derive(Clone, Copy)]
pub enum Entries {
    Lanes,
    Closed,
    Moves,
    Places,
}

// The checks of entry k of the list. Only those of a move look at the closed nodes, and only those of a place
// at how many carriers there are.
pub fn check_one(
    which: Entries,
    nodes: usize,
    carriers: usize,
    closed: &[u16],
    list: &[u16],
    k: usize,
) -> Result<(), Refusal>
    ensures { Judged
        (only_at k (each_in which nodes carriers closed.now list.now))
        result }
{
    match which {
        Entries::Lanes => check_lane(nodes, list, k),
        Entries::Closed => check_closed_node(nodes, list, k),
        Entries::Moves => check_entry(nodes, closed, list, k),
        Entries::Places => check_place(carriers, list, Place(k)),
    }
}

// So many checks, one after the other: the first refusal.
pub(crate) fn first_refusal<F: Fn(usize) -> Result<(), Refusal>>(
    count: usize,
    check: F,
) -> Result<(), Refusal>
    requires { F.IsAlwaysCallable check }
    ensures { FirstRefusal (F.post check) count result }
{
    for k in 0..count {
        check(k)?;
    }
    Ok(())
}

// The checks of every entry of the list: the first fault, with its place.
pub fn check_each(
    which: Entries,
    nodes: usize,
    carriers: usize,
    closed: &[u16],
    list: &[u16],
) -> Result<(), Refusal>
    ensures { Judged
        (each_in which nodes carriers closed.now list.now ∷ [])
        result }
{
    let numbers = list.len();
    let count = match which {
        Entries::Lanes | Entries::Moves => numbers / 2,
        Entries::Closed | Entries::Places => numbers,
    };
    first_refusal(
        count,
        |k| check_one(which, nodes, carriers, closed, list, k),
    )
}
