// A trolley of calls (rules 13.14 to 13.18), as a step from a book to a book by value: a list of moves at one
// clock value, admitted one by one up to the first that is refused. Every book, clock value, network, list of
// moves and list of ticks may be put. The record as it is lent is in the crate `book`.
//
// Cost: what is asked of the book, the clock and the network is asked with the first move alone, and for 17
// the carriers held before it are looked at once. Then each move takes two distance walks. Working memory:
// that of one admission.
ghost use Rattle.std.specs.Prelude.{◌≤◌, length};
ghost use Rattle.hall.specs.Floor.{network_in};
ghost use Rattle.hall.specs.Job.{move_count};
ghost use Rattle.admission.specs.Trolley.{said_ended, Ride};
ghost use Rattle.admission.specs.Steps.{Riding};

use crate::admit_known;
use hall::zero::fill_first;
use hall::{Ends, Fault, Job, Network, Refusal};
use slots::Book;

// Why a trolley ended before all its moves were admitted: it was refused before any move, or all moves before
// the one with this number were admitted, and that one was refused.
#[derive(Drop)]
pub enum Stop {
    Before(Refusal),
    At(usize, Refusal),
}

// How it ended, and the book as it stands then.
#[derive(Drop)]
pub struct Rode {
    pub ended: Result<(), Stop>,
    pub book: Book,
}

// The moves one by one. The start tick of each that is admitted goes to its place in the list.
fn ride_moves(book: Book, clock: u32, network: &Network, moves: &[u16], ticks: &mut [u32]) -> Rode
    requires { move_count moves.now ≤ length ticks.old }
    ensures { Riding
        (network_in network.now)
        book clock
        moves.now ticks.old
        (said_ended result.ended) result.book ticks.new }
{
    let count = moves.len() / 2;
    let mut held = book;
    for k in 0..count {
        let ends = Ends {
            start: moves[2 * k],
            goal: moves[2 * k + 1],
        };
        let known = k > 0;
        let done = admit_known(known, held, clock, network, ends);
        held = done.book;
        match done.answer {
            Ok(entry) => {
                ticks[k] = entry.tick;
            }
            Err(refusal) => {
                return Rode {
                    ended: Err(Stop::At(k, refusal)),
                    book: held,
                };
            }
        }
    }
    Rode {
        ended: Ok(()),
        book: held,
    }
}

// A trolley at the clock value `clock`, which the rules call now: in a contract `now` is what is lent. 9 for
// a list of ticks that is too short and 2 for too many moves come before any admission; then the moves.
pub fn ride(book: Book, clock: u32, network: &Network, moves: &[u16], ticks: &mut [u32]) -> Rode
    ensures { Ride
        (network_in network.now)
        book clock
        moves.now ticks.old
        (said_ended result.ended) result.book ticks.new }
{
    if ticks.len() < Job::CARRIERS {
        return Rode {
            ended: Err(Stop::Before(Refusal::new(Fault::ShortTable, 0))),
            book,
        };
    }
    fill_first(ticks, Job::CARRIERS, 0);
    if moves.len() / 2 > Job::CARRIERS {
        return Rode {
            ended: Err(Stop::Before(Refusal::new(Fault::BadCount, 2))),
            book,
        };
    }
    ride_moves(book, clock, network, moves, ticks)
}
