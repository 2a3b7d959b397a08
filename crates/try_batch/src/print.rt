// Printing answers. What is written goes to the writer that is lent; where a function answers nothing, that it
// is safe and ends is all there is to promise. An error that it answers is the writer's.
use hall::{Job, Refusal};
use std::io;
use std::io::Write;

// The counts of a job that was read, and its dwell.
fn counts<W: Write>(out: &mut W, job: Job) -> io::Result<()> {
    let Job {
        nodes,
        lanes,
        closed,
        carriers,
        dwell,
    } = job;
    writeln!(out, "READ {nodes} {lanes} {closed} {carriers} {dwell}")
}

pub fn read<W: Write>(out: &mut W, read: Result<Job, Refusal>) -> io::Result<()> {
    match read {
        Ok(job) => counts(out, job),
        Err(refusal) => writeln!(out, "{refusal}"),
    }
}

pub fn planned<W: Write>(out: &mut W, planned: Result<u32, Refusal>) -> io::Result<()> {
    match planned {
        Ok(cost) => writeln!(out, "COST {cost}"),
        Err(refusal) => writeln!(out, "{refusal}"),
    }
}

pub fn housed<W: Write>(out: &mut W, housed: Result<usize, Refusal>) -> io::Result<()> {
    match housed {
        Ok(count) => writeln!(out, "PATH {count}"),
        Err(refusal) => writeln!(out, "{refusal}"),
    }
}

pub fn judged<W: Write>(out: &mut W, judged: Result<(), Refusal>) -> io::Result<()> {
    match judged {
        Ok(()) => writeln!(out, "PASSED"),
        Err(refusal) => writeln!(out, "{refusal}"),
    }
}

// The choice between two lists. The library answers the lent list itself; here it is told by its contents,
// which is enough, since the own list is chosen wherever the two are equal and one is a shortest path.
pub fn chosen<W: Write>(out: &mut W, list: &[u16], own: &[u16]) -> io::Result<()> {
    if list.is_empty() {
        writeln!(out, "NONE")
    } else if list == own {
        writeln!(out, "OWN")
    } else {
        writeln!(out, "SPARE")
    }
}
