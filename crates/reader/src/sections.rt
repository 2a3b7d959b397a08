// The sections of a job text (rules 7.1, 7.8 to 7.13, 7.17 and 7.18). One step reads any of them: it takes
// what was read so far, and puts the section's count and its entries to it. The sections differ in their
// words and terms, in where their count goes and in what they list; a section that is added to the form is one case
// more in each of these. The last step asks for the end of the text.
ghost use Rattle.std.specs.Prelude.{◌≡◌, ◌≤◌, length};
ghost use Rattle.reader.specs.Sections.{in_form, room_of, terms_in, with_count};
ghost use Rattle.reader.specs.Sections.{Ready, SectionStep, EndStep};

use crate::lines::entry_lines;
use cursor::Cursor;
use hall::zero::fill_first;
use hall::{Fault, Job, Refusal};
use network::entries::Entries;

// The sections by name: two are their count alone, the others list entries below it.
#[derive(Clone, Copy)]
pub enum Sections {
    Nodes,
    Dwell,
    Listed(Entries),
}

// On which terms a section stands: the least length of its table, the least and the greatest count that fit, and
// whether it may be missing.
#[derive(Drop)]
pub struct Terms {
    pub room: usize,
    pub least: usize,
    pub greatest: usize,
    pub optional: bool,
}

impl Terms {
    const NODES: Terms = Terms {
        room: 0,
        least: 1,
        greatest: Job::NODES,
        optional: false,
    };

    const LANES: Terms = Terms {
        room: Job::LANE_NUMBERS,
        least: 0,
        greatest: Job::LANES,
        optional: false,
    };

    const CLOSED: Terms = Terms {
        room: Job::NODES,
        least: 1,
        greatest: Job::NODES,
        optional: true,
    };

    const CARRIERS: Terms = Terms {
        room: Job::MOVE_NUMBERS,
        least: 0,
        greatest: Job::CARRIERS,
        optional: false,
    };

    const DWELL: Terms = Terms {
        room: 0,
        least: 1,
        greatest: Job::DWELL,
        optional: true,
    };
}

// The word of a section.
fn word_of(which: Sections) -> &'static [u8]
    ensures { result.now ≡ (in_form which).word }
{
    match which {
        Sections::Nodes => b"NODES",
        Sections::Listed(Entries::Lanes) => b"LANES",
        Sections::Listed(Entries::Closed) => b"CLOSED",
        Sections::Listed(Entries::Moves) => b"CARRIERS",
        Sections::Listed(Entries::Places) => b"ORDER",
        Sections::Dwell => b"DWELL",
    }
}

// The terms of a section, by the carriers so far: the order has as many places.
fn terms_of(which: Sections, carriers: usize) -> Terms
    ensures { result ≡ terms_in which carriers }
{
    match which {
        Sections::Nodes => Terms::NODES,
        Sections::Listed(Entries::Lanes) => Terms::LANES,
        Sections::Listed(Entries::Closed) => Terms::CLOSED,
        Sections::Listed(Entries::Moves) => Terms::CARRIERS,
        Sections::Listed(Entries::Places) => Terms {
            room: Job::CARRIERS,
            least: carriers,
            greatest: carriers,
            optional: false,
        },
        Sections::Dwell => Terms::DWELL,
    }
}

// The counts so far with that of a section put in. The order's is the carriers', which is there.
fn with_count(which: Sections, count: usize, before: Job) -> Job
    ensures { result ≡ with_count which count before }
{
    let mut job = before;
    match which {
        Sections::Nodes => job.nodes = count,
        Sections::Listed(Entries::Lanes) => job.lanes = count,
        Sections::Listed(Entries::Closed) => job.closed = count,
        Sections::Listed(Entries::Moves) => job.carriers = count,
        Sections::Listed(Entries::Places) => {}
        Sections::Dwell => job.dwell = count,
    }
    job
}

// A section, behind the counts that were read so far and from where the cursor stands: the counts with its own
// put in, and where the next line begins. Its table becomes zero, then its count is read, and as many entries,
// if it lists any, go in front of the zeros; the ends of moves may not be among the closed nodes so far. Where
// no line of its count stands and it may be missing, nothing more changes: the cursor stays, and the next step
// asks for its own line there. A section without entries leaves the table that it is lent.
pub(crate) fn section(
    text: &[u8],
    read: (Job, Cursor),
    which: Sections,
    closed: &[u16],
    table: &mut [u16],
) -> Result<(Job, Cursor), Refusal>
    requires { Ready text.now closed.now which read.0 read.1 × (room_of which ≤ length table.old) }
    ensures { SectionStep text.now closed.now which read.0 read.1
        table.old table.new result }
{
    let (before, here) = read;
    let terms = terms_of(which, before.carriers);
    fill_first(table, terms.room, 0);
    let Some((number, next)) = here.count(text, word_of(which)) else {
        if terms.optional {
            return Ok(read);
        }
        return Err(Refusal::new(Fault::Malformed, here.line));
    };
    let count = number as usize;
    if count < terms.least || terms.greatest < count {
        return Err(Refusal::new(Fault::BadCount, here.line));
    }
    let job = with_count(which, count, before);
    let Sections::Listed(entries) = which else {
        return Ok((job, next));
    };
    let shut = before.closed;
    let behind = entry_lines(text, next, entries, job, &closed[..shut], count, table)?;
    Ok((job, behind))
}

// The end of the text: no byte may be left.
pub(crate) fn at_end(text: &[u8], read: (Job, Cursor)) -> Result<Job, Refusal>
    ensures { EndStep text.now read.0 read.1 result }
{
    let (job, here) = read;
    if here.at < text.len() {
        return Err(Refusal::new(Fault::Malformed, here.line));
    }
    Ok(job)
}
