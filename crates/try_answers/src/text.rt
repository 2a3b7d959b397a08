// The kinds with a text: what the program answers to it, what reading it leaves, and the questions about the
// job that it has.
use super::asked::ask;
use hall::{Job, JobNumbers, Network};
use reader::read_numbers;
use std::io;
use std::io::Write;
use try_batch::kind::Kind;
use try_batch::marked::{BYTE_MARK, MARK, lend, marked_shorts, print_runs};
use try_batch::payload::{filled, front, short_at};
use try_batch::print;

// The answer to a text, as it is printed.
pub(crate) fn plan<W: Write>(out: &mut W, text: &[u8]) -> io::Result<()> {
    let mut room = [0u8; 2048];
    let n = report::answer(text, &mut room);
    out.write_all(front(&room, n))
}

// How many bytes the answer has, and what all bytes hold.
pub(crate) fn print_to<W: Write>(out: &mut W, s: &[u8], text: &[u8]) -> io::Result<()> {
    let mut room: [u8; 2100] = filled(BYTE_MARK);
    let count = report::answer(text, lend(&mut room, s, 0));
    writeln!(out, "BYTES {count}")?;
    print_runs(out, b"out", &room)
}

pub(crate) fn read<W: Write>(out: &mut W, s: &[u8], text: &[u8]) -> io::Result<()> {
    let mut lanes = marked_shorts();
    let mut closed: [u16; 1100] = filled(MARK);
    let mut moves: [u16; 200] = filled(MARK);
    let mut order: [u16; 100] = filled(MARK);
    let read = read_numbers(
        text,
        lend(&mut lanes, s, 0),
        lend(&mut closed, s, 2),
        lend(&mut moves, s, 4),
        lend(&mut order, s, 6),
    );
    print::read(out, read)?;
    print_runs(out, b"lanes", &lanes)?;
    print_runs(out, b"closed", &closed)?;
    print_runs(out, b"moves", &moves)?;
    print_runs(out, b"order", &order)
}

// A question about the job of a text. The text is read once, and then as often as the payload's last number
// says: the benchmark gets the time of reading from that.
pub(crate) fn ask_of<W: Write>(out: &mut W, kind: Kind, s: &[u8], text: &[u8]) -> io::Result<()> {
    let mut lanes = [0u16; Job::LANE_NUMBERS];
    let mut closed = [0u16; Job::NODES];
    let mut moves = [0u16; Job::MOVE_NUMBERS];
    let mut order = [0u16; Job::CARRIERS];
    for _ in 0..short_at(s, 6) {
        let _ = read_numbers(text, &mut lanes, &mut closed, &mut moves, &mut order);
    }
    match read_numbers(text, &mut lanes, &mut closed, &mut moves, &mut order) {
        Ok(job) => ask(
            out,
            kind,
            s,
            &JobNumbers {
                network: Network {
                    nodes: job.nodes,
                    lanes: front(&lanes, 2 * job.lanes.min(Job::LANES)),
                    closed: front(&closed, job.closed),
                },
                moves: front(&moves, 2 * job.carriers.min(Job::CARRIERS)),
                order: front(&order, job.carriers),
                dwell: job.dwell,
            },
        ),
        Err(refusal) => writeln!(out, "{refusal}"),
    }
}
