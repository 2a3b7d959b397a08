// The carriers' records, in one lent list by carrier number (rule 3.10), and the thin functions that carry
// them to numbers and back. Each takes every input: it goes as far as the shortest of what it is lent.
// Nothing here decides: what is to be written, and for how many records, is computed by functions on numbers.
// Every promise is one equation of the list that is left (specs/Table.antt).
#![tactic(auto)]

ghost use Rattle.std.specs.Prelude.{◌≡◌};
ghost use Rattle.records.specs.Table.{moved, timed, placed};

// What is held of a carrier: the start and goal of its move, its distance and its start tick.
#[derive(Clone, Copy, Default)]
pub struct Record {
    pub start: u16,
    pub goal: u16,
    pub distance: u16,
    pub tick: u32,
}

// Copies the start and the goal of each record to the front of `moves`, two numbers for each, for as many
// records as have room.
#[tactic(auto, using(crate::proofs::Lists::load_step))]
pub fn load_moves(records: &[Record], moves: &mut [u16])
    ensures { moves.new ≡ moved records.now moves.old }
{
    let n = records.len().min(moves.len() / 2);
    for i in 0..n {
        moves[2 * i] = records[i].start;
        moves[2 * i + 1] = records[i].goal;
    }
}

// Writes the distance and the tick of the first `count` records, as many as there are records, distances and
// ticks. Nothing else in a record changes (rule 9.7).
#[tactic(auto, using(crate::proofs::Lists::timed_step, crate::proofs::Lists::timed_all))]
pub fn store_times(records: &mut [Record], count: usize, distances: &[u16], ticks: &[u32])
    ensures { records.new
        ≡ timed count records.old distances.now ticks.now }
{
    let times = distances.len().min(ticks.len());
    let timed = records.len().min(times);
    let n = count.min(timed);
    for i in 0..n {
        records[i] = Record {
            distance: distances[i],
            tick: ticks[i],
            ..records[i]
        };
    }
}

// The first `count` records, as many as there are records and pairs of moves, become records of those moves,
// with distance and tick 0 (rule 9.5).
#[tactic(auto, using(crate::proofs::Lists::placed_step, crate::proofs::Lists::placed_all))]
pub fn store_moves(records: &mut [Record], count: usize, moves: &[u16])
    ensures { records.new ≡ placed count records.old moves.now }
{
    let n = count.min(records.len().min(moves.len() / 2));
    for i in 0..n {
        records[i] = Record {
            start: moves[2 * i],
            goal: moves[2 * i + 1],
            distance: 0,
            tick: 0,
        };
    }
}
