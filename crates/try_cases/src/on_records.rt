// The questions that take records. The records' numbers are `fields`, in four columns of 80: the starts, the
// goals, the distances, the ticks (crate `try_columns`). A job with records has them behind its dwell and no
// moves, and how many of the 80 are lent is the payload's last number. What a question left in the records is
// printed where it may change them; those that get a shared list cannot.
use hall::{Carrier, Network};
use records::Record;
use std::io;
use std::io::Write;
use try_batch::kind::Kind;
use try_batch::marked::{MARK, lend, marked_bytes, marked_shorts, print_runs, print_written};
use try_batch::payload::{
    behind_job, behind_list, behind_network, filled, job_room, list_room, loaded_list,
    loaded_network, long_at, rest, short_at,
};
use try_batch::print;
use try_columns::{LENDABLE, made};
use try_records::{house_lent, judge_lent, plan_lent, read_lent, write_lent};

// So many numbers have the records.
const FIELDS: usize = 320;

// A job with records, of which so many are lent.
#[derive(Clone, Copy)]
struct Recorded<'a> {
    network: Network<'a>,
    count: usize,
    order: &'a [u16],
    dwell: usize,
    records: [Record; LENDABLE],
}

pub(crate) fn read<W: Write>(out: &mut W, s: &[u8], text: &[u8]) -> io::Result<()> {
    let mut lanes = marked_shorts();
    let mut closed: [u16; 1100] = filled(MARK);
    let mut order: [u16; 100] = filled(MARK);
    let mut fields: [u32; FIELDS] = filled(MARK as u32);
    let records = made(&fields);
    let read = read_lent(
        text,
        lend(&mut lanes, s, 0),
        lend(&mut closed, s, 2),
        short_at(s, 4) as usize,
        lend(&mut order, s, 6),
        records,
        &mut fields,
    );
    print::read(out, read)?;
    print_runs(out, b"lanes", &lanes)?;
    print_runs(out, b"closed", &closed)?;
    print_runs(out, b"records", &fields)?;
    print_runs(out, b"order", &order)
}

// The records whose numbers stand at the front of a payload, of four bytes each.
fn records_at(s: &[u8]) -> [Record; LENDABLE] {
    let mut fields: [u32; FIELDS] = filled(0);
    for (i, field) in fields.iter_mut().enumerate() {
        *field = long_at(s, 4 * i);
    }
    made(&fields)
}

// A question about a job with records.
pub(crate) fn ask<W: Write>(out: &mut W, kind: Kind, s: &[u8], job: &[u8]) -> io::Result<()> {
    let mut lane_room = job_room();
    let mut closed_room = job_room();
    let mut order_room = job_room();
    let places = behind_list(behind_network(job));
    let recorded = Recorded {
        network: loaded_network(job, &mut lane_room, &mut closed_room),
        count: short_at(s, 6) as usize,
        order: loaded_list(places, &mut order_room),
        dwell: long_at(behind_list(places), 0) as usize,
        records: records_at(behind_job(job)),
    };
    match kind {
        Kind::PlanRecords => plan(out, s, &recorded),
        Kind::HouseRecords => house(out, s, &recorded),
        Kind::WriteRecords => write(out, s, &recorded),
        _ => judge(out, s, &recorded),
    }
}

fn plan<W: Write>(out: &mut W, s: &[u8], job: &Recorded) -> io::Result<()> {
    let mut table = marked_shorts();
    let mut fields: [u32; FIELDS] = filled(MARK as u32);
    let planned = plan_lent(
        &job.network,
        job.count,
        job.order,
        job.dwell,
        lend(&mut table, s, 0),
        job.records,
        &mut fields,
    );
    print::planned(out, planned)?;
    print_runs(out, b"table", &table)?;
    print_runs(out, b"records", &fields)
}

fn house<W: Write>(out: &mut W, s: &[u8], job: &Recorded) -> io::Result<()> {
    let mut path: [u16; 1100] = filled(MARK);
    let housed = house_lent(
        &job.network,
        job.count,
        job.order,
        job.dwell,
        Carrier(short_at(s, 2)),
        lend(&mut path, s, 0),
        job.records,
    );
    print::housed(out, housed)?;
    print_runs(out, b"path", &path)
}

fn judge<W: Write>(out: &mut W, s: &[u8], job: &Recorded) -> io::Result<()> {
    let mut room = list_room();
    let judged = judge_lent(
        &job.network,
        job.count,
        job.order,
        job.dwell,
        Carrier(short_at(s, 2)),
        loaded_list(rest(s, 8), &mut room),
        job.records,
    );
    print::judged(out, judged)
}

fn write<W: Write>(out: &mut W, s: &[u8], job: &Recorded) -> io::Result<()> {
    let mut bytes = marked_bytes();
    let written = write_lent(
        &job.network,
        job.count,
        job.order,
        job.dwell,
        lend(&mut bytes, s, 0),
        job.records,
    );
    print_written(out, written, &bytes)
}
