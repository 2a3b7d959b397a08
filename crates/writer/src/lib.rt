// Writes a job as its text, from its numbers, into lent bytes of 47,142 at least (rules 7.15, 8.30 and 9.14):
// what `reader` reads, the other way round. The text is the written form that crate `form` says, so what is
// written is read as what it was. Nothing is asked of the input: 9 comes first, then the listed checks as
// `network::checks::check_job` finds them, and a job without these is written in one pass, each byte once,
// and zeros behind it. No walk is asked for: a job is written whether its carriers can reach their goals or
// not. The section of the closed nodes stands only where some are closed (rule 7.17), and the line of the
// dwell only where carriers wait (rule 7.18).
//
// An odd last number of the moves is in no move and is not written (rule 1.7). An odd last number of the
// lanes is a fault of their count.
#![tactic(auto)]

ghost use Rattle.std.specs.Prelude.{◌<◌};
ghost use Rattle.hall.specs.Job.{job_in};
ghost use Rattle.put.specs.Putting.{Puts};
ghost use Rattle.form.specs.Lines.{count_line, entry_lines};
ghost use Rattle.form.specs.Contents.{written};
ghost use Rattle.form.specs.Jobs.{closed_contents, dwell_contents, text_of};
ghost use Rattle.writer.specs.Rows.{rows_of};
ghost use Rattle.writer.specs.Writing.{said_written, Writing};

use hall::zero::fill_first;
use hall::{Fault, Job, JobNumbers, Refusal};
use network::checks::check_job;
use put::Out;

// ---- lines

// The line of a section: its word and its count.
fn put_count(word: &[u8], count: usize, text: &mut Out)
    ensures { Puts text.old (count_line word.now count) text.new }
{
    text.word(word);
    text.byte(b' ');
    text.field(count, b'\n');
}

// Lines of `N` numbers: two for lanes and moves, one for closed nodes and the order.
fn put_lines<const N: usize>(numbers: &[u16], text: &mut Out)
    requires { 0 < N }
    ensures { Puts text.old (entry_lines (rows_of N numbers.now)) text.new }
{
    for line in numbers.chunks_exact(N) {
        for k in 0..N - 1 {
            text.field(usize::from(line[k]), b' ');
        }
        text.field(usize::from(line[N - 1]), b'\n');
    }
}

// The section of the closed nodes, or nothing where none is closed.
fn put_closed_nodes(closed: &[u16], text: &mut Out)
    ensures { Puts text.old (written (closed_contents closed.now)) text.new }
{
    let count = closed.len();
    if count == 0 {
        return;
    }
    put_count(b"CLOSED", count, text);
    put_lines::<1>(closed, text);
}

// The line of the dwell, or nothing where it is 0.
fn put_dwell(dwell: usize, text: &mut Out)
    ensures { Puts text.old (written (dwell_contents dwell)) text.new }
{
    if dwell == 0 {
        return;
    }
    put_count(b"DWELL", dwell, text);
}

// The sections in their order.
fn put_job(job: &JobNumbers, text: &mut Out)
    ensures { Puts text.old (text_of (job_in job.now)) text.new }
{
    let network = &job.network;
    put_count(b"NODES", network.nodes, text);
    put_count(b"LANES", network.lanes.len() / 2, text);
    put_lines::<2>(network.lanes, text);
    put_closed_nodes(network.closed, text);
    put_count(b"CARRIERS", job.moves.len() / 2, text);
    put_lines::<2>(job.moves, text);
    put_count(b"ORDER", job.order.len(), text);
    put_lines::<1>(job.order, text);
    put_dwell(job.dwell, text);
}

// ---- the question

// Writes a job as its text, and answers how many bytes that has or the first refusal. The text goes to the
// front of `out`, zeros follow up to 47,142 bytes, and what lies beyond is not touched; whoever hands the
// text on hands on so many bytes as the answer says. 9 leaves `out` as it came, any other refusal zeroes the
// 47,142. The moves are a start and a goal by turns, and an odd last number is not written.
pub fn write_numbers(job: &JobNumbers, out: &mut [u8]) -> Result<usize, Refusal>
    ensures { Writing (job_in job.now) out.old out.new (said_written result) }
{
    if out.len() < Job::TEXT_BYTES {
        return Err(Refusal::new(Fault::ShortTable, 0));
    }
    if let Err(refusal) = check_job(job) {
        fill_first(out, Job::TEXT_BYTES, 0);
        return Err(refusal);
    }
    let mut text = Out { bytes: out, at: 0 };
    put_job(job, &mut text);
    text.zero_rest(Job::TEXT_BYTES);
    Ok(text.at)
}
