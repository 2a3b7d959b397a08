// The questions about a job, or about a move in its network, wherever the job comes from. The payload's four
// numbers say how long each lent table is, and which carrier or move is asked about; its lists are the ones
// to judge, or to choose from.
use asks::{house_for, judge_for};
use hall::{Carrier, Ends, JobNumbers, Network};
use path::{choose, house, judge};
use planner::plan_moves;
use std::io;
use std::io::Write;
use try_batch::kind::Kind;
use try_batch::marked::{MARK, lend, marked_bytes, marked_shorts, print_runs, print_written};
use try_batch::payload::{behind_list, filled, list_room, loaded_list, rest, short_at};
use try_batch::print;
use writer::write_numbers;

pub(crate) fn ask<W: Write>(out: &mut W, kind: Kind, s: &[u8], job: &JobNumbers) -> io::Result<()> {
    let network = &job.network;
    let carrier = Carrier(short_at(s, 2));
    match kind {
        Kind::PlanNumbers => plan(out, s, job),
        Kind::HouseForText => print_house_for(out, s, job, carrier),
        Kind::JudgeForText => print_judged_for(out, s, job, carrier),
        Kind::WriteText | Kind::WriteNumbers => write(out, s, job),
        Kind::JudgeText => print_judged(out, s, network),
        Kind::HouseJudgeNumbers => {
            print_house(out, s, network)?;
            print_judged(out, s, network)
        }
        Kind::ChooseText | Kind::ChooseNumbers => print_chosen(out, s, network),
        _ => print_house(out, s, network),
    }
}

fn plan<W: Write>(out: &mut W, s: &[u8], job: &JobNumbers) -> io::Result<()> {
    let mut table = marked_shorts();
    let mut distances: [u16; 100] = filled(MARK);
    let mut ticks: [u32; 100] = filled(MARK as u32);
    let planned = plan_moves(
        job,
        lend(&mut table, s, 0),
        lend(&mut distances, s, 2),
        lend(&mut ticks, s, 4),
    );
    print::planned(out, planned)?;
    print_runs(out, b"table", &table)?;
    print_runs(out, b"distances", &distances)?;
    print_runs(out, b"ticks", &ticks)
}

fn print_house_for<W: Write>(
    out: &mut W,
    s: &[u8],
    job: &JobNumbers,
    carrier: Carrier,
) -> io::Result<()> {
    let mut path: [u16; 1100] = filled(MARK);
    let housed = house_for(job, carrier, lend(&mut path, s, 0));
    print::housed(out, housed)?;
    print_runs(out, b"path", &path)
}

fn print_judged_for<W: Write>(
    out: &mut W,
    s: &[u8],
    job: &JobNumbers,
    carrier: Carrier,
) -> io::Result<()> {
    let mut room = list_room();
    let judged = judge_for(job, carrier, loaded_list(rest(s, 8), &mut room));
    print::judged(out, judged)
}

// The job is written once, and then as often as the payload's second number says: the benchmark gets the time
// of writing from that.
fn write<W: Write>(out: &mut W, s: &[u8], job: &JobNumbers) -> io::Result<()> {
    let mut bytes = marked_bytes();
    for _ in 0..short_at(s, 2) {
        let _ = write_numbers(job, lend(&mut bytes, s, 0));
    }
    let written = write_numbers(job, lend(&mut bytes, s, 0));
    print_written(out, written, &bytes)
}

// ---- questions about a move

// The ends of the move that a payload asks about.
fn ends_in(s: &[u8]) -> Ends {
    Ends {
        start: short_at(s, 2),
        goal: short_at(s, 4),
    }
}

fn print_house<W: Write>(out: &mut W, s: &[u8], network: &Network) -> io::Result<()> {
    let mut path: [u16; 1100] = filled(MARK);
    let housed = house(network, ends_in(s), lend(&mut path, s, 0));
    print::housed(out, housed)?;
    print_runs(out, b"path", &path)
}

fn print_judged<W: Write>(out: &mut W, s: &[u8], network: &Network) -> io::Result<()> {
    let mut room = list_room();
    let judged = judge(network, ends_in(s), loaded_list(rest(s, 8), &mut room));
    print::judged(out, judged)
}

// The choice, and how long the chosen list is.
fn print_chosen<W: Write>(out: &mut W, s: &[u8], network: &Network) -> io::Result<()> {
    let from = rest(s, 8);
    let mut own_room = list_room();
    let mut spare_room = list_room();
    let own = loaded_list(from, &mut own_room);
    let spare = loaded_list(behind_list(from), &mut spare_room);
    let chosen = choose(network, ends_in(s), own, spare);
    print::chosen(out, chosen, own)?;
    writeln!(out, "{}", chosen.len())
}
