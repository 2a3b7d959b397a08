// A carrier's record as numbers, for programs that try the questions which take records: an array of 80
// records from a list of numbers, and back. The numbers stand in four columns of 80: the starts, the goals,
// the distances, the ticks. A list that is shorter is read as far as it goes and then as zeros, and written
// as far as it goes; a start, goal or distance above 65,535 counts as 65,535. What is public takes every
// input, and its promise is an equation (specs/Columns.antt).
#![tactic(auto)]

ghost use Rattle.std.specs.Prelude.{◌≡◌, ◌<◌, min, set};
ghost use Rattle.try_columns.specs.Columns.{lendable, half_of, number_in, record_from};
ghost use Rattle.try_columns.specs.Columns.{made_of, tell_to, told_to};

use records::Record;

// How many records are made, and how long a column is.
pub const LENDABLE: usize = 80;

// Where the columns behind the starts begin.
const GOALS: usize = LENDABLE;

const DISTANCES: usize = 2 * LENDABLE;

const TICKS: usize = 3 * LENDABLE;

// ---- records and numbers

// The number that a count of records is cut to: there are no more in the array.
pub fn within(count: usize) -> usize
    ensures { result ≡ min count lendable }
{
    count.min(LENDABLE)
}

// A number as a node or a distance: what is above 65,535 counts as 65,535.
fn half(x: u32) -> u16
    ensures { result ≡ half_of x }
{
    u16::try_from(x).unwrap_or(u16::MAX)
}

// The number at a place, 0 where the list has none.
fn number_at(fields: &[u32], at: usize) -> u32
    ensures { result ≡ number_in fields.now at }
{
    fields.get(at).copied().unwrap_or(0)
}

// The record of carrier i, a number from each column.
fn record_of(fields: &[u32], i: usize) -> Record
    requires { i < lendable }
    ensures { result ≡ record_from fields.now i }
{
    Record {
        start: half(number_at(fields, i)),
        goal: half(number_at(fields, i + GOALS)),
        distance: half(number_at(fields, i + DISTANCES)),
        tick: number_at(fields, i + TICKS),
    }
}

// The array of records that the columns give.
#[tactic(auto, using(crate::proofs::Columns::made_all))]
pub fn made(fields: &[u32]) -> [Record; LENDABLE]
    ensures { result ≡ made_of fields.now }
{
    let mut records = [Record::default(); LENDABLE];
    for (i, record) in records.iter_mut().enumerate() {
        *record = record_of(fields, i);
    }
    records
}

// Writes a number at a place that the list has.
fn put(fields: &mut [u32], at: usize, number: u32)
    ensures { fields.new ≡ set fields.old at number }
{
    if at < fields.len() {
        fields[at] = number;
    }
}

// Writes a record to the columns.
#[tactic(auto, unfolding(crate::specs::Columns::tell_to))]
fn tell(r: Record, i: usize, fields: &mut [u32])
    requires { i < lendable }
    ensures { fields.new ≡ tell_to r i fields.old }
{
    put(fields, i, u32::from(r.start));
    put(fields, i + GOALS, u32::from(r.goal));
    put(fields, i + DISTANCES, u32::from(r.distance));
    put(fields, i + TICKS, r.tick);
}

// Writes an array of records to the columns.
#[tactic(auto, using(crate::proofs::Columns::told_step, crate::proofs::Columns::told_end))]
pub fn told(records: [Record; LENDABLE], fields: &mut [u32])
    ensures { fields.new ≡ told_to records fields.old }
{
    for (i, record) in records.iter().enumerate() {
        tell(*record, i, fields);
    }
}
