// The types that every crate shares, in the words of the rules: a job's counts with their limits, a place in
// the order, a carrier's number, faults and refusals. The mathematics that they speak about stands in specs/,
// its laws in proofs/. Nothing here refuses or searches; the functions that write are in zero.rt.
#![tactic(auto)]

ghost use Rattle.std.specs.Prelude.{◌≡◌, get_or};
ghost use Rattle.hall.specs.Numbers.{number_of};
ghost use Rattle.hall.specs.Limits.{largest_job, empty_job};

use std::fmt;

pub mod zero;

// The counts of a job and its dwell: what reading an accepted text answers.
#[derive(Clone, Copy)]
pub struct Job {
    pub nodes: usize,
    pub lanes: usize,
    pub closed: usize,
    pub carriers: usize,
    pub dwell: usize,
}

impl Job {
    pub const NODES: usize = 1024;

    pub const LANES: usize = 4096;

    pub const CARRIERS: usize = 64;

    // So many ticks at most a carrier stands on its goal after its goal tick.
    pub const DWELL: usize = 255;

    // Two numbers for each lane, and for each move, that a job can have.
    pub const LANE_NUMBERS: usize = 2 * Job::LANES;

    pub const MOVE_NUMBERS: usize = 2 * Job::CARRIERS;

    // A block of the distance table has a place for every two carriers, and the table has three blocks.
    pub const BLOCK: usize = Job::CARRIERS * Job::CARRIERS;

    pub const TABLE: usize = 3 * Job::BLOCK;

    // So many bytes hold the text of any job that is written: the least length of its output.
    pub const TEXT_BYTES: usize = 47142;

    // What stands for "no walk" in the place of a distance.
    pub const NO_WALK: u16 = 65535;

    // The counts at the limits: whatever is past one of them is refused.
    pub fn largest() -> Self
        ensures { result ≡ largest_job }
    {
        Job {
            nodes: Job::NODES,
            lanes: Job::LANES,
            closed: Job::NODES,
            carriers: Job::CARRIERS,
            dwell: Job::DWELL,
        }
    }

    // A job without carriers. A hall has a node at least, so it has one, and no lane; nobody waits.
    pub fn empty() -> Self
        ensures { result ≡ empty_job }
    {
        Job {
            nodes: 1,
            lanes: 0,
            closed: 0,
            carriers: 0,
            dwell: 0,
        }
    }
}

// A lane network as it is lent: how many nodes it has, its lanes, two numbers each, and its closed nodes.
#[derive(Clone, Copy)]
pub struct Network<'a> {
    pub nodes: usize,
    pub lanes: &'a [u16],
    pub closed: &'a [u16],
}

// A job as it is lent: its network, its moves, a start and a goal by turns, its order and its dwell.
#[derive(Clone, Copy)]
pub struct JobNumbers<'a> {
    pub network: Network<'a>,
    pub moves: &'a [u16],
    pub order: &'a [u16],
    pub dwell: usize,
}

// Where a move begins and where it ends.
#[derive(Clone, Copy)]
pub struct Ends {
    pub start: u16,
    pub goal: u16,
}

// A place in the order: place 0 goes first.
#[derive(Clone, Copy)]
pub struct Place(pub usize);

// A carrier's number.
#[derive(Clone, Copy)]
pub struct Carrier(pub u16);

impl Place {
    // The carrier at this place, in an order that lists carrier numbers by place. Past the order's end it is
    // carrier 0.
    pub fn carrier(self, order: &[u16]) -> Carrier
        ensures { result.0 ≡ get_or order.now self.0 0 }
    {
        Carrier(order.get(self.0).copied().unwrap_or(0))
    }
}

// Why a question is refused: one variant for each refusal number in use, with that number. 6 is not (rule 8.6).
#[derive(Clone, Copy)]
pub enum Fault {
    Malformed = 1,
    BadCount = 2,
    BadLane = 3,
    NoNode = 4,
    SameEnds = 5,
    BadOrder = 7,
    Unreachable = 8,
    ShortTable = 9,
    NoCarrier = 10,
    NotShortest = 11,
    BadClosed = 12,
    ClosedEnd = 13,
    BadClock = 14,
    NoSlot = 15,
    BadBook = 16,
    StaleSlot = 17,
}

impl Fault {
    // The listed number of a fault.
    pub fn number(self) -> u8
        ensures { result ≡ number_of self }
    {
        self as u8
    }
}

// A refusal: the fault, with its line in a text or its place among the numbers.
#[derive(Clone, Copy)]
pub struct Refusal {
    pub fault: Fault,
    pub place: usize,
}

impl Refusal {
    pub fn new(fault: Fault, place: usize) -> Self
        ensures { result ≡ record { fault = fault; place = place } }
    {
        Refusal { fault, place }
    }
}

impl fmt::Display for Refusal {
    ghost use Rattle.std.specs.Prelude.{Some};
    ghost use Rattle.hall.specs.Printed.{refusal_text};

    // What is printed of it.
    ghost output = { λ r. Some (refusal_text r) };

    fn fmt<W: fmt::Write>(&self, f: &mut fmt::Formatter<W>) -> fmt::Result {
        let number = self.fault.number();
        write!(f, "REFUSED {number} {}", self.place)
    }
}
