// A job with its carriers' records: what the questions of crate `jobs`, which lend them, promise (specs/),
// and what these questions decide, as functions on numbers: what is answered, and how many records are
// written. Every input is taken. The functions over lent records only carry numbers; all else is here, so
// that it is proved, and tried with mistakes, without those.
//
// The moves of a job come loaded from its records into a list, with how many records there are beside it. The
// part of the list that is handed on is theirs: its length tells `planner`, `asks` and `writer` how many
// carriers the job has. The list is working memory of the caller: 260 bytes, for the moves of 65 records, one
// more than a job can have. A job of more than 64 records is refused whatever the moves are, so the 65th
// tells enough.
#![tactic(auto)]

ghost use Rattle.std.specs.Prelude.{◌≡◌};
ghost use Rattle.hall.specs.Job.{job_in};
ghost use Rattle.reader.specs.Reading.{said_read};
ghost use Rattle.planner.specs.Planning.{said_planned, lent, Planning};
ghost use Rattle.writer.specs.Writing.{said_written, Writing};
ghost use Rattle.recorded.specs.Asking.{HouseGiven, ListGiven};
ghost use Rattle.recorded.specs.Loading.{Beside, Placing, loaded, loaded_job, stored_count};

use asks::{house_for, judge_for};
use hall::{Carrier, Fault, Job, JobNumbers, Refusal};
use planner::plan_moves;
use reader::read_numbers;
use writer::write_numbers;

// As many records are loaded as a job can have, and one more: it tells that there are too many.
const LOADED: usize = Job::CARRIERS + 1;

pub const LOADED_NUMBERS: usize = 2 * LOADED;

// ---- reading

// Reads a text into numbers, beside a list of so many records, which has its own least length.
pub fn read_beside(
    text: &[u8],
    lanes: &mut [u16],
    closed: &mut [u16],
    records: usize,
    moves: &mut [u16],
    order: &mut [u16],
) -> Result<Job, Refusal>
    ensures { Beside
        text.now
        lanes.old closed.old records moves.old order.old
        lanes.new closed.new moves.new order.new
        (said_read result) }
{
    if records < Job::CARRIERS {
        return Err(Refusal::new(Fault::ShortTable, 0));
    }
    read_numbers(text, lanes, closed, moves, order)
}

// How many records reading writes, by the lengths of the lent tables: none if one of them is too short.
pub fn placed_count(lanes: usize, closed: usize, records: usize, order: usize) -> usize
    ensures { Placing lanes closed records order result }
{
    let short = lanes < Job::LANE_NUMBERS
        || closed < Job::NODES
        || records < Job::CARRIERS
        || order < Job::CARRIERS;
    if short { 0 } else { Job::CARRIERS }
}

// ---- the moves that are loaded

// The part of a list that has the moves of that many records, of 65 at most.
fn part(records: usize, moves: &[u16]) -> &[u16]
    ensures { result.now ≡ loaded records moves.now }
{
    let most = records.min(LOADED);
    let n = moves.len().min(2 * most);
    &moves[..n]
}

// The job whose moves are that part of the list that is lent as its moves.
fn loaded_part<'a>(job: &JobNumbers<'a>, records: usize) -> JobNumbers<'a>
    ensures { job_in result ≡ loaded_job records (job_in job.now) }
{
    JobNumbers {
        moves: part(records, job.moves),
        ..*job
    }
}

// ---- the questions

// The plan of a job of `records` carriers whose moves are loaded.
pub fn plan_loaded(
    job: &JobNumbers,
    records: usize,
    table: &mut [u16],
    distances: &mut [u16],
    ticks: &mut [u32],
) -> Result<u32, Refusal>
    ensures { Planning
        (loaded_job records (job_in job.now))
        (lent table.old distances.old ticks.old)
        (lent table.new distances.new ticks.new)
        (said_planned result) }
{
    plan_moves(&loaded_part(job, records), table, distances, ticks)
}

// How many of `records` records planning writes: none after a refusal.
pub fn stored_count(answer: Result<u32, Refusal>, records: usize) -> usize
    ensures { result ≡ stored_count answer records }
{
    match answer {
        Ok(_) => records,
        Err(_) => 0,
    }
}

// The house path of one carrier of a job of `records` carriers whose moves are loaded.
pub fn house_loaded(
    job: &JobNumbers,
    records: usize,
    carrier: Carrier,
    path: &mut [u16],
) -> Result<usize, Refusal>
    ensures { HouseGiven
        (loaded_job records (job_in job.now))
        carrier.0
        path.old path.new
        result }
{
    house_for(&loaded_part(job, records), carrier, path)
}

// Whether a list is a shortest path of one carrier of a job of `records` carriers whose moves are loaded.
pub fn judge_loaded(
    job: &JobNumbers,
    records: usize,
    carrier: Carrier,
    list: &[u16],
) -> Result<(), Refusal>
    ensures { ListGiven
        (loaded_job records (job_in job.now))
        carrier.0
        list.now
        result }
{
    judge_for(&loaded_part(job, records), carrier, list)
}

// The text of a job of `records` carriers whose moves are loaded.
pub fn write_loaded(job: &JobNumbers, records: usize, out: &mut [u8]) -> Result<usize, Refusal>
    ensures { Writing
        (loaded_job records (job_in job.now))
        out.old out.new
        (said_written result) }
{
    write_numbers(&loaded_part(job, records), out)
}
