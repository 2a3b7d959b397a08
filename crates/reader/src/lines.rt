// The lines of a section's entries (rules 7.8 to 7.12), whose numbers go into a lent table one after the
// other. An entry is stored first and then checked where it stands, by the checks of crate network. The first
// faulty line ends the reading; its line is the cursor's.
ghost use Rattle.std.specs.Prelude.{suc, ◌*◌, ◌≤◌, length};
ghost use Rattle.reader.specs.Entries.{section_of, EntryStored, Begun, EntriesRead};

use cursor::Cursor;
use hall::{Fault, Job, Refusal};
use network::entries::{Entries, check_one};

// The numbers of entry k, from its line into the table.
fn store_entry(
    text: &[u8],
    here: Cursor,
    which: Entries,
    k: usize,
    table: &mut [u16],
) -> Option<Cursor>
    requires { (section_of which).size * suc k ≤ length table.old }
    ensures { EntryStored text.now (section_of which).size k here
        table.old
        table.new
        result }
{
    match which {
        Entries::Closed | Entries::Places => {
            let (a, next) = here.one(text)?;
            table[k] = a;
            Some(next)
        }
        Entries::Lanes | Entries::Moves => {
            let (a, b, next) = here.pair(text)?;
            let at = 2 * k;
            table[at] = a;
            table[at + 1] = b;
            Some(next)
        }
    }
}

// As many lines of entries as are counted, from where the cursor stands to where the next line begins. Only
// the checks of moves look at the closed nodes.
pub(crate) fn entry_lines(
    text: &[u8],
    from: Cursor,
    which: Entries,
    job: Job,
    closed: &[u16],
    count: usize,
    table: &mut [u16],
) -> Result<Cursor, Refusal>
    requires { Begun text.now which job closed.now count from table.old }
    ensures { EntriesRead text.now which job closed.now count from
        table.old table.new result }
{
    let mut here = from;
    for k in 0..count {
        let Some(next) = store_entry(text, here, which, k, table) else {
            return Err(Refusal::new(Fault::Malformed, here.line));
        };
        if let Err(r) = check_one(which, job.nodes, job.carriers, closed, table, k) {
            return Err(Refusal::new(r.fault, here.line));
        }
        here = next;
    }
    Ok(here)
}
