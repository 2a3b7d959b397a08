// The checks of a call with a book, a clock value and a move (rule 8.31, all but 15), and the rows of
// distances that they leave. After an accepted admission what is asked of the book, the clock and the network
// passes at the same clock on the same network: the next call then asks about its move alone.
ghost use Rattle.std.specs.Prelude.{◌≡◌, true};
ghost use Rattle.hall.specs.Floor.{network_in};
ghost use Rattle.hall.specs.Stages.{None};
ghost use Rattle.hall.specs.Questions.{move_ends};
ghost use Rattle.admission.specs.Steps.{Settled, Reached, Called};

use crate::rows::Rows;
use crate::stale::check_held;
use hall::{Ends, Fault, Job, Network, Refusal};
use network::checks::{check_ends, check_move};
use slots::{Book, check_book};

// 8, of a move whose ends are open nodes of a sound network. Where it does not hold, the rows have the
// distances from the start and from the goal.
fn check_walk(network: &Network, ends: Ends, rows: &mut Rows) -> Result<(), Refusal>
    requires { None (move_ends (network_in network.now) ends.start ends.goal) }
    ensures { Reached (network_in network.now) ends.start ends.goal rows.new result }
{
    walk::distances(network, ends.start, &mut rows.outward);
    walk::distances(network, ends.goal, &mut rows.inward);
    let distance = rows.outward[ends.goal as usize];
    if distance == Job::NO_WALK {
        return Err(Refusal::new(Fault::Unreachable, 0));
    }
    Ok(())
}

// The checks of a call with a book, a clock value and a move: 16, 14, those of the network and the move, 17.
// Where none holds, the rows have the distances from the start and from the goal.
pub(crate) fn check_call(
    book: &Book,
    t: u32,
    network: &Network,
    ends: Ends,
    rows: &mut Rows,
) -> Result<(), Refusal>
    ensures { Called (network_in network.now) book.now t ends.start ends.goal rows.new result }
{
    check_book(book, t)?;
    check_move(network, ends)?;
    check_walk(network, ends, rows)?;
    check_held(network, book, t)
}

// The same. Where `known`, all that is asked of the book, the clock value and the network is known to pass,
// and only the move is asked about: 4, 5, 13 and 8.
pub(crate) fn check_known(
    known: bool,
    book: &Book,
    t: u32,
    network: &Network,
    ends: Ends,
    rows: &mut Rows,
) -> Result<(), Refusal>
    requires { known ≡ true → Settled (network_in network.now) book.now t }
    ensures { Called (network_in network.now) book.now t ends.start ends.goal rows.new result }
{
    if !known {
        return check_call(book, t, network, ends, rows);
    }
    check_ends(network.nodes, network.closed, ends, 0)?;
    check_walk(network, ends, rows)
}
