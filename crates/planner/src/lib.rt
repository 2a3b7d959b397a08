// Planning a job from numbers (rule 8.23): the distance table, the carriers' distances and start ticks, and
// the cost; or the first refusal with its place. Every input is taken. 9 comes first and leaves all as it
// came; any other refusal leaves the least lengths of the lent lists zero, and what lies beyond as it came.
// It goes by three steps, of which a planner with another search for start ticks takes the first two: what
// comes before the table (`receive`), the table with 8 (`tables::measure`), the start ticks.
//
// Work at the limit of 64 carriers: at most 128 distance walks (see crate tables) and some 90,000 pair tests
// (see crate ticks).
#![tactic(auto)]

ghost use Rattle.hall.specs.Job.{job_in};
ghost use Rattle.hall.specs.Said.{said_checked};
ghost use Rattle.hall.specs.Rule.{Answers};
ghost use Rattle.planner.specs.Planning.{said_planned, lent, Short, Planning};
ghost use Rattle.planner.specs.Receiving.{Receiving};

use hall::zero::fill_first;
use hall::{Fault, Job, JobNumbers, Refusal};
use network::checks::check_job;
use tables::{Unmeasured, measure};
use ticks::start_ticks;

// 9, by the lengths of the lent lists.
fn short(table: usize, distances: usize, ticks: usize) -> bool
    ensures { Answers result (Short table distances ticks) }
{
    table < Job::TABLE || distances < Job::CARRIERS || ticks < Job::CARRIERS
}

// What comes before the distance table: 9 by the lengths of the lent lists, which leaves them as they came;
// else their least lengths become zero, and the listed checks of the job are made.
pub fn receive(
    job: &JobNumbers,
    table: &mut [u16],
    distances: &mut [u16],
    ticks: &mut [u32],
) -> Result<(), Refusal>
    ensures { Receiving
        (job_in job.now)
        (lent table.old distances.old ticks.old)
        (lent table.new distances.new ticks.new)
        (said_checked result) }
{
    if short(table.len(), distances.len(), ticks.len()) {
        return Err(Refusal::new(Fault::ShortTable, 0));
    }
    fill_first(table, Job::TABLE, 0);
    fill_first(distances, Job::CARRIERS, 0);
    fill_first(ticks, Job::CARRIERS, 0);
    check_job(job)
}

// The plan of a job: its table, its carriers' distances and start ticks, and its cost; or the first refusal.
// A move is two numbers: an odd last number of `moves` is no move and is ignored.
pub fn plan_moves(
    job: &JobNumbers,
    table: &mut [u16],
    distances: &mut [u16],
    ticks: &mut [u32],
) -> Result<u32, Refusal>
    ensures { Planning
        (job_in job.now)
        (lent table.old distances.old ticks.old)
        (lent table.new distances.new ticks.new)
        (said_planned result) }
{
    receive(job, table, distances, ticks)?;
    match measure(&job.network, job.moves, table, distances) {
        Ok(()) => {}
        Err(Unmeasured::Lost(carrier)) => {
            return Err(Refusal::new(Fault::Unreachable, carrier.0 as usize));
        }
        // What is received is served.
        Err(Unmeasured::Unserved) => unreachable!(),
    }
    // What is received and measured is served.
    let cost = start_ticks(table, job.order, job.dwell, ticks).unwrap();
    Ok(cost)
}
