// Every question that takes a whole job, with a lent list of the carriers' records, by carrier number:
// reading a job text into lent tables, writing a job as its text, planning, and the questions about one
// carrier's path. Each takes every input. These functions are thin: all but reading carry the records to a
// local list of numbers, each asks a function on numbers, and reading and planning write its answer into the
// records; the others only read them. The functions on numbers decide what is answered and how many records
// are written: they stand in crate `recorded`, with what is promised here.
//
// Working memory here: 260 bytes for the moves of at most 65 records (`recorded` says why 65), 384 for the
// distances and ticks of 64.
#![tactic(auto)]

ghost use Rattle.std.specs.Prelude.{◌≡◌, ◌*◌, replicate};
ghost use Rattle.hall.specs.Floor.{network_in};
ghost use Rattle.records.specs.Table.{moved};
ghost use Rattle.recorded.specs.Reading.{ReadLeft};
ghost use Rattle.recorded.specs.Writing.{RecordWriting};
ghost use Rattle.recorded.specs.Planning.{RecordPlanning};
ghost use Rattle.recorded.specs.Asking.{HouseOfRecords, ListOfRecords};
ghost use Rattle.recorded.specs.Loading.{crowd};

use hall::{Carrier, Job, JobNumbers, Network, Refusal};
use recorded::{
    LOADED_NUMBERS, house_loaded, judge_loaded, placed_count, plan_loaded, read_beside,
    stored_count, write_loaded,
};
use records::{Record, load_moves, store_moves, store_times};

// ---- reading

// Reads a job text: the lanes' numbers go to `lanes`, the closed nodes to `closed`, the carriers' starts and
// goals to the first 64 `records`, with distance and tick 0, the order to `order`. The counts and the dwell
// are answered.
pub fn read_job(
    text: &[u8],
    lanes: &mut [u16],
    closed: &mut [u16],
    records: &mut [Record],
    order: &mut [u16],
) -> Result<Job, Refusal>
    ensures { ReadLeft
        text.now text.now
        lanes.old lanes.new
        closed.old closed.new
        records.old records.new
        order.old order.new result }
{
    let mut moves = [0u16; Job::MOVE_NUMBERS];
    let answer = read_beside(text, lanes, closed, records.len(), &mut moves, order);
    let count = placed_count(lanes.len(), closed.len(), records.len(), order.len());
    store_moves(records, count, &moves);
    answer
}

// ---- the moves of the records

// The starts and goals of as many records as are looked at, zeros behind them.
fn loaded(records: &[Record]) -> [u16; LOADED_NUMBERS]
    ensures { result ≡ moved records.now (replicate (2 * crowd) 0) }
{
    let mut moves = [0; LOADED_NUMBERS];
    load_moves(records, &mut moves);
    moves
}

// ---- writing

// Writes a job as its text, to the front of an output of 47,142 bytes at least; answers how many bytes the
// text has, or the first refusal. What is left in the output is as `writer::write_numbers` leaves it.
pub fn write_job(
    network: &Network,
    records: &[Record],
    order: &[u16],
    dwell: usize,
    out: &mut [u8],
) -> Result<usize, Refusal>
    ensures { RecordWriting
        (network_in network.now)
        (network_in network.now)
        records.now records.now
        order.now order.now
        dwell
        out.old out.new
        result }
{
    let moves = loaded(records);
    let job = JobNumbers {
        network: *network,
        moves: &moves,
        order,
        dwell,
    };
    write_loaded(&job, records.len(), out)
}

// ---- planning

// Plans a job: fills the distance table and, in the records, each carrier's distance and start tick; answers
// the cost, or the first refusal.
pub fn plan(
    network: &Network,
    records: &mut [Record],
    order: &[u16],
    dwell: usize,
    table: &mut [u16],
) -> Result<u32, Refusal>
    ensures { RecordPlanning
        (network_in network.now)
        (network_in network.now)
        records.old records.new
        order.now order.now
        dwell
        table.old table.new
        result }
{
    let moves = loaded(records);
    let mut distances = [0u16; Job::CARRIERS];
    let mut ticks = [0u32; Job::CARRIERS];
    let n = records.len();
    let job = JobNumbers {
        network: *network,
        moves: &moves,
        order,
        dwell,
    };
    let answer = plan_loaded(&job, n, table, &mut distances, &mut ticks);
    let count = stored_count(answer, n);
    store_times(records, count, &distances, &ticks);
    answer
}

// ---- one carrier's path

// The house path of one carrier of a job, into a list of 1,024 places at least; answers how many nodes it
// has, or the first refusal.
pub fn house(
    network: &Network,
    records: &[Record],
    order: &[u16],
    dwell: usize,
    carrier: Carrier,
    path: &mut [u16],
) -> Result<usize, Refusal>
    ensures { HouseOfRecords
        (network_in network.now)
        (network_in network.now)
        records.now records.now
        order.now order.now
        dwell
        carrier.0
        path.old path.new
        result }
{
    let moves = loaded(records);
    let job = JobNumbers {
        network: *network,
        moves: &moves,
        order,
        dwell,
    };
    house_loaded(&job, records.len(), carrier, path)
}

// Whether a proposed list is a shortest path of one carrier of a job.
pub fn judge(
    network: &Network,
    records: &[Record],
    order: &[u16],
    dwell: usize,
    carrier: Carrier,
    list: &[u16],
) -> Result<(), Refusal>
    ensures { ListOfRecords
        (network_in network.now)
        (network_in network.now)
        records.now records.now
        order.now order.now
        dwell
        carrier.0
        list.now list.now
        result }
{
    let moves = loaded(records);
    let job = JobNumbers {
        network: *network,
        moves: &moves,
        order,
        dwell,
    };
    judge_loaded(&job, records.len(), carrier, list)
}
