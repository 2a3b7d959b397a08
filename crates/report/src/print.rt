// What the plan program prints, as functions on lent bytes: the text of a plan and of a refusal (rules 10.1,
// 10.2 and 10.6). A text goes to the front of the bytes, places behind it are zero up to 2,048, those beyond
// are never touched, and the answer is how many bytes the text has. Each byte is written once: the text, then
// the zeros behind it. Where the bytes are too few, there are more than 64 carriers, or a carrier lacks a
// distance or a tick, nothing is printed and the answer is 0. Every text that can be asked for fits into
// 2,048 bytes, so nothing of it is dropped.
ghost use Rattle.std.specs.Prelude.{◌≤◌, length, get_or};
ghost use Rattle.put.specs.Putting.{Puts};
ghost use Rattle.report.specs.Printed.{carrier_line, carrier_lines};
ghost use Rattle.report.specs.Printing.{PlanPrinting, RefusedPrinting};

use hall::Job;
use put::Out;

// The least length of the bytes that are lent.
pub const ROOM: usize = 2048;

// A carrier's line: its number, start tick, distance and goal tick.
fn put_carrier(carrier: usize, tick: u32, distance: u16, text: &mut Out)
    ensures { Puts text.old (carrier_line carrier tick distance) text.new }
{
    let start = tick as usize;
    let way = distance as usize;
    text.field(carrier, b' ');
    text.field(start, b' ');
    text.field(way, b' ');
    text.field(start + way, b'\n');
}

// The carriers' lines, by carrier number.
fn put_carriers(carriers: usize, distances: &[u16], ticks: &[u32], text: &mut Out)
    requires { (carriers ≤ length distances.now) × (carriers ≤ length ticks.now) }
    ensures { Puts
        text.old
        (carrier_lines carriers (λ i. get_or ticks.now i 0) (λ i. get_or distances.now i 0))
        text.new }
{
    for carrier in 0..carriers {
        put_carrier(carrier, ticks[carrier], distances[carrier], text);
    }
}

// The text of a plan: how many carriers there are, their lines, and the cost.
pub fn print_plan(
    carriers: usize,
    distances: &[u16],
    ticks: &[u32],
    cost: u32,
    out: &mut [u8],
) -> usize
    ensures { PlanPrinting
        carriers distances.now ticks.now cost
        out.old out.new
        result }
{
    if carriers > Job::CARRIERS
        || distances.len() < carriers
        || ticks.len() < carriers
        || out.len() < ROOM
    {
        return 0;
    }
    let mut text = Out { bytes: out, at: 0 };
    text.word(b"PLAN ");
    text.field(carriers, b'\n');
    put_carriers(carriers, distances, ticks, &mut text);
    text.word(b"COST ");
    text.field(cost as usize, b'\n');
    text.zero_rest(ROOM);
    text.at
}

// The text of a refusal: its listed number, and the line.
pub fn print_refused(number: u8, line: usize, out: &mut [u8]) -> usize
    ensures { RefusedPrinting number line out.old out.new result }
{
    if out.len() < ROOM {
        return 0;
    }
    let mut text = Out { bytes: out, at: 0 };
    text.word(b"REFUSED ");
    text.field(number as usize, b' ');
    text.field(line, b'\n');
    text.zero_rest(ROOM);
    text.at
}
