// Reads a job text (section 7 of the rules) into lent tables, section by section, against the form that crate
// `form` says, with the cursor of crate `cursor` (rules 8.21 and 9.4 to 9.6). A table that is too short is
// refused before anything is read, and leaves every table as it came. Otherwise each table becomes zero up to
// its least length before its section is read, so that an accepted text leaves its numbers and zeros behind
// them; a refusal zeroes every table.
#![tactic(auto)]

ghost use Rattle.hall.specs.Rule.{Answers};
ghost use Rattle.reader.specs.Reading.{said_read, TooShort, ReadInto};
ghost use Rattle.reader.specs.Text.{Long, TextRead};

use crate::sections::{Sections, at_end, section};
use cursor::Cursor;
use hall::zero::fill_first;
use hall::{Fault, Job, Refusal};
use network::entries::Entries;

pub mod lines;
pub mod sections;

// So many bytes of a text have the answer of the whole (rule 7.7; `first_bytes_read` in proofs/Exactly.antt):
// one more than the least output of writing, which every accepted text fits into.
pub const FIRST_BYTES: usize = Job::TEXT_BYTES + 1;

// Whether a table of those lengths is shorter than its least length.
fn too_short(lanes: usize, closed: usize, moves: usize, order: usize) -> bool
    ensures { Answers result (TooShort lanes closed moves order) }
{
    lanes < Job::LANE_NUMBERS
        || closed < Job::NODES
        || moves < Job::MOVE_NUMBERS
        || order < Job::CARRIERS
}

// The sections in their order, into tables that are long enough, and the end. The nodes and the dwell go into
// no table, and leave the one that they are lent; before the closed nodes are read there are none.
fn read_text(
    text: &[u8],
    lanes: &mut [u16],
    closed: &mut [u16],
    moves: &mut [u16],
    order: &mut [u16],
) -> Result<Job, Refusal>
    requires { Long lanes.old closed.old moves.old order.old }
    ensures { TextRead text.now
        lanes.old
        closed.old
        moves.old
        order.old
        lanes.new
        closed.new
        moves.new
        order.new
        result }
{
    let none: &[u16] = &[];
    let read = (Job::empty(), Cursor::start());
    let read = section(text, read, Sections::Nodes, none, lanes)?;
    let read = section(text, read, Sections::Listed(Entries::Lanes), none, lanes)?;
    let read = section(text, read, Sections::Listed(Entries::Closed), none, closed)?;
    let shut: &[u16] = closed;
    let read = section(text, read, Sections::Listed(Entries::Moves), shut, moves)?;
    let read = section(text, read, Sections::Listed(Entries::Places), shut, order)?;
    let read = section(text, read, Sections::Dwell, shut, order)?;
    at_end(text, read)
}

// Reads a job text. The lanes' numbers go to `lanes`, the closed nodes to `closed`, the starts and goals of
// the carriers by turns to `moves`, and the order to `order`; the counts and the dwell are answered, or the
// refusal with its line.
pub fn read_numbers(
    text: &[u8],
    lanes: &mut [u16],
    closed: &mut [u16],
    moves: &mut [u16],
    order: &mut [u16],
) -> Result<Job, Refusal>
    ensures { ReadInto text.now
        lanes.old
        closed.old
        moves.old
        order.old
        lanes.new
        closed.new
        moves.new
        order.new
        (said_read result) }
{
    if too_short(lanes.len(), closed.len(), moves.len(), order.len()) {
        return Err(Refusal::new(Fault::ShortTable, 0));
    }
    let answer = read_text(text, lanes, closed, moves, order);
    if let Err(_) = answer {
        fill_first(lanes, Job::LANE_NUMBERS, 0);
        fill_first(closed, Job::NODES, 0);
        fill_first(moves, Job::MOVE_NUMBERS, 0);
        fill_first(order, Job::CARRIERS, 0);
    }
    answer
}
