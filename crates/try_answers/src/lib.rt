// Answers the kinds of cases that take no records (second/README.md, "Batch format"): each takes its payload
// apart, asks the library one question, or two, and prints the answer and what the tables hold that were lent
// full of marks. The answers are the library's; nothing is decided here. What is printed no contract can say,
// so that every function is safe and ends is all that there is to promise.
#![tactic(auto)]

mod asked;
mod text;

use asked::ask;
use hall::JobNumbers;
use std::io;
use std::io::Write;
use try_batch::kind::Kind;
use try_batch::payload::{
    behind_list, behind_network, body, job_room, loaded_list, loaded_network, long_at,
};

// The answer to a case, by the letter of its kind.
pub fn answer<W: Write>(out: &mut W, letter: u8, s: &[u8]) -> io::Result<()> {
    let Ok(kind) = Kind::try_from(letter) else {
        return writeln!(out, "no such kind");
    };
    let from = body(s);
    match kind {
        Kind::PlanText => text::plan(out, from),
        Kind::FillText => text::print_to(out, s, from),
        Kind::ReadText => text::read(out, s, from),
        Kind::HouseForText
        | Kind::HouseText
        | Kind::JudgeForText
        | Kind::JudgeText
        | Kind::ChooseText
        | Kind::WriteText => text::ask_of(out, kind, s, from),
        Kind::PlanNumbers
        | Kind::HouseNumbers
        | Kind::HouseJudgeNumbers
        | Kind::ChooseNumbers
        | Kind::WriteNumbers => ask_numbers(out, kind, s, from),
        _ => writeln!(out, "no such kind"),
    }
}

// A question about a job from numbers: nodes, lane numbers, closed nodes, moves, order and dwell.
fn ask_numbers<W: Write>(out: &mut W, kind: Kind, s: &[u8], job: &[u8]) -> io::Result<()> {
    let mut lanes = job_room();
    let mut closed = job_room();
    let mut moves = job_room();
    let mut order = job_room();
    let carriers = behind_network(job);
    let places = behind_list(carriers);
    ask(
        out,
        kind,
        s,
        &JobNumbers {
            network: loaded_network(job, &mut lanes, &mut closed),
            moves: loaded_list(carriers, &mut moves),
            order: loaded_list(places, &mut order),
            dwell: long_at(behind_list(places), 0) as usize,
        },
    )
}
