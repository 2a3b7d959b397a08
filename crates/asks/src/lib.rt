// Questions about one carrier of a whole job, from numbers (rules 6.8, 8.26 and 8.27): the house path of its
// move, and whether a proposed list is a shortest path of that move. Any numbers may be put. The whole job is
// checked first, the walks of all its carriers too, then the number named; what is left is the question with
// a network and a move, which the crate `path` answers.
//
// Cost: a distance walk for each carrier, at most 64, and then that of the question itself.
#![tactic(auto)]

ghost use Rattle.std.specs.Prelude.{◌≡◌, [], ◌∷◌, ◌/◌, ◌<◌, length};
ghost use Rattle.hall.specs.Floor.{NoWalk, network_in, floor};
ghost use Rattle.hall.specs.Job.{start_in, goal_in, job_in};
ghost use Rattle.hall.specs.Rule.{Answers};
ghost use Rattle.hall.specs.Said.{Judged};
ghost use Rattle.hall.specs.Questions.{each_walk, lacking, asked_question};
ghost use Rattle.asks.specs.Asked.{HouseAsked, ListAsked, MoveAsked, WalkFrom, Walkable};

use hall::zero::fill_first;
use hall::{Carrier, Ends, Fault, Job, JobNumbers, Network, Refusal};

// Whether no walk joins start and goal.
fn cut_off(network: &Network, ends: Ends) -> bool
    requires { WalkFrom (network_in network.now) ends.start ends.goal }
    ensures { Answers result (NoWalk (floor (network_in network.now)) ends.start ends.goal) }
{
    let mut row: [u16; Job::NODES] = [0; Job::NODES];
    walk::distances(network, ends.start, &mut row);
    row[ends.goal as usize] == Job::NO_WALK
}

// The start and the goal of the move with a number.
fn move_of(moves: &[u16], number: usize) -> Ends
    requires { number < length moves.now / 2 }
    ensures start { result.start ≡ start_in moves.now number }
    ensures goal { result.goal ≡ goal_in moves.now number }
{
    let at = 2 * number;
    Ends {
        start: moves[at],
        goal: moves[at + 1],
    }
}

// 8: the lowest carrier number that no walk takes from its start to its goal.
fn check_reach(network: &Network, moves: &[u16]) -> Result<(), Refusal>
    requires { Walkable (network_in network.now) moves.now }
    ensures { Judged (each_walk (network_in network.now) moves.now ∷ []) result }
{
    for i in 0..moves.len() / 2 {
        if cut_off(network, move_of(moves, i)) {
            return Err(Refusal::new(Fault::Unreachable, i));
        }
    }
    Ok(())
}

// 10: whether the job has the carrier that a question names.
fn check_number(carriers: usize, carrier: Carrier) -> Result<(), Refusal>
    ensures { Judged (lacking carriers carrier.0 ∷ []) result }
{
    let number = carrier.0 as usize;
    if number >= carriers {
        return Err(Refusal::new(Fault::NoCarrier, number));
    }
    Ok(())
}

// A job and a carrier number: the listed checks of the job, 8 at the lowest carrier without a walk,
// and last 10.
pub fn check_asked(job: &JobNumbers, carrier: Carrier) -> Result<(), Refusal>
    ensures { Judged (asked_question (job_in job.now) carrier.0) result }
{
    network::checks::check_job(job)?;
    check_reach(&job.network, job.moves)?;
    check_number(job.moves.len() / 2, carrier)
}

// The carrier's move, where neither the job nor the number is at fault.
fn asked_move(job: &JobNumbers, carrier: Carrier) -> Result<Ends, Refusal>
    ensures { MoveAsked (job_in job.now) carrier.0 result }
{
    check_asked(job, carrier)?;
    Ok(move_of(job.moves, carrier.0 as usize))
}

// The house path of one carrier's move, into a list of 1,024 places at least; past its end they become zero.
pub fn house_for(job: &JobNumbers, carrier: Carrier, path: &mut [u16]) -> Result<usize, Refusal>
    ensures { HouseAsked
        (job_in job.now)
        (job_in job.now)
        carrier.0
        path.old path.new
        result }
{
    if path.len() < Job::NODES {
        return Err(Refusal::new(Fault::ShortTable, 0));
    }
    match asked_move(job, carrier) {
        Ok(ends) => path::house(&job.network, ends, path),
        Err(refusal) => {
            fill_first(path, Job::NODES, 0);
            Err(refusal)
        }
    }
}

// Whether a proposed list is a shortest path of one carrier's move. Where neither the job nor the number is
// at fault, it is refused with 11 exactly if it is none, whoever made it.
pub fn judge_for(job: &JobNumbers, carrier: Carrier, list: &[u16]) -> Result<(), Refusal>
    ensures { ListAsked
        (job_in job.now)
        (job_in job.now)
        carrier.0
        list.now list.now
        result }
{
    let ends = asked_move(job, carrier)?;
    path::judge(&job.network, ends, list)
}
