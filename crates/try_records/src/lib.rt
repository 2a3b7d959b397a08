// The questions that take records, for programs that have 80 of them in an array: each lends the first
// `count` to the question. So a program can lend 63, 64 or 70 records, and see what is left in each of them
// and in those behind.
//
// A question that may change the records writes the whole array to `fields` afterwards, in four columns of
// 80: the starts, the goals, the distances, the ticks (crate `try_columns`, which makes the array from such
// columns). One that only reads them leaves them as they came. Of a count above 80 the array is what there
// is.
//
// Promised is, for every input, that the question's own promise in `jobs` holds of the records lent, and that
// `fields` ends as what the question leaves of them and those behind, written to it (specs/Lent.antt). That
// fixes the answer, every lent table and `fields` (proofs/Unique.antt). Nothing is decided here.
#![tactic(auto)]

ghost use Rattle.std.specs.Prelude.{◌≡◌};
ghost use Rattle.std.specs.Fn.{CalledAtMut};
ghost use Rattle.hall.specs.Floor.{network_in};
ghost use Rattle.try_records.specs.Lent.{front_of, Lending};
ghost use Rattle.try_records.specs.Lent.{LentReading, LentPlanning, LentHouse, LentList, LentWriting};

use hall::{Carrier, Job, Network, Refusal};
use jobs::{house, judge, plan, read_job, write_job};
use records::Record;
use try_columns::{LENDABLE, told, within};

// Asks a question with the first `count` records, and writes what it leaves of them, and those behind, to
// `fields`. What it leaves in the lists that it captures stands in `ask` afterwards.
fn lend<R, F: FnMut(&mut [Record]) -> R>(
    mut records: [Record; LENDABLE],
    count: usize,
    fields: &mut [u32],
    ask: &mut F,
) -> R
    requires { F.IsAlwaysCallable ask.old }
    ensures { Lending
        (λ front left. CalledAtMut F.FnMut ask.old front result ask.new left)
        count
        records
        fields.old fields.new }
{
    let answer = ask(&mut records[..within(count)]);
    told(records, fields);
    answer
}

// The first `count` records, for a question that only reads them.
fn front(records: &[Record; LENDABLE], count: usize) -> &[Record]
    ensures { result.now ≡ front_of count records.now }
{
    &records[..within(count)]
}

// `jobs::read_job` with the first `count` records lent.
pub fn read_lent(
    text: &[u8],
    lanes: &mut [u16],
    closed: &mut [u16],
    count: usize,
    order: &mut [u16],
    records: [Record; LENDABLE],
    fields: &mut [u32],
) -> Result<Job, Refusal>
    ensures { LentReading
        text.now text.now
        lanes.old lanes.new
        closed.old closed.new
        count
        order.old order.new
        records
        fields.old fields.new
        result }
{
    let mut ask = |front: &mut [Record]| read_job(text, lanes, closed, front, order);
    lend(records, count, fields, &mut ask)
}

// `jobs::plan` with the first `count` records lent.
pub fn plan_lent(
    network: &Network,
    count: usize,
    order: &[u16],
    dwell: usize,
    table: &mut [u16],
    records: [Record; LENDABLE],
    fields: &mut [u32],
) -> Result<u32, Refusal>
    ensures { LentPlanning
        (network_in network.now)
        (network_in network.now)
        count
        order.now order.now
        dwell
        table.old table.new
        records
        fields.old fields.new
        result }
{
    let mut ask = |front: &mut [Record]| plan(network, front, order, dwell, table);
    lend(records, count, fields, &mut ask)
}

// `jobs::house` with the first `count` records lent.
pub fn house_lent(
    network: &Network,
    count: usize,
    order: &[u16],
    dwell: usize,
    carrier: Carrier,
    path: &mut [u16],
    records: [Record; LENDABLE],
) -> Result<usize, Refusal>
    ensures { LentHouse
        (network_in network.now)
        (network_in network.now)
        count
        order.now order.now
        dwell
        carrier.0
        path.old path.new
        records
        result }
{
    house(network, front(&records, count), order, dwell, carrier, path)
}

// `jobs::judge` with the first `count` records lent.
pub fn judge_lent(
    network: &Network,
    count: usize,
    order: &[u16],
    dwell: usize,
    carrier: Carrier,
    list: &[u16],
    records: [Record; LENDABLE],
) -> Result<(), Refusal>
    ensures { LentList
        (network_in network.now)
        (network_in network.now)
        count
        order.now order.now
        dwell
        carrier.0
        list.now list.now
        records
        result }
{
    judge(network, front(&records, count), order, dwell, carrier, list)
}

// `jobs::write_job` with the first `count` records lent.
pub fn write_lent(
    network: &Network,
    count: usize,
    order: &[u16],
    dwell: usize,
    out: &mut [u8],
    records: [Record; LENDABLE],
) -> Result<usize, Refusal>
    ensures { LentWriting
        (network_in network.now)
        (network_in network.now)
        count
        order.now order.now
        dwell
        out.old out.new
        records
        result }
{
    write_job(network, front(&records, count), order, dwell, out)
}
