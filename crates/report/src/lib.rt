// The answer to a job text, as the plan program prints it: the plan of the job, or the refusal with its line.
// Every text is taken. The answer goes to the front of the lent bytes, places behind it are zero up to 2,048,
// and those beyond are never touched, as section 9 of the rules has it of lent lists; into fewer than 2,048
// bytes nothing is printed and the answer is 0 (rule 10.6). A print is none of the questions of section 8, so
// no refusal number is given for a short list. The tables that reading and planning fill are locals of their
// least lengths, 43,776 bytes of arrays, so neither refuses with 9.
#![tactic(auto)]

ghost use Rattle.std.specs.Prelude.{◌≡◌};
ghost use Rattle.hall.specs.Job.{job_in};
ghost use Rattle.hall.specs.Stages.{None};
ghost use Rattle.hall.specs.Questions.{checks_question};
ghost use Rattle.form.specs.Jobs.{closed_lines};
ghost use Rattle.report.specs.Answer.{JobAnswer, AnswerText, Answering};

use crate::print::{print_plan, print_refused};
use hall::{Job, JobNumbers, Network};
use planner::plan_moves;
use reader::read_numbers;

pub mod print;

// How many lines the section of the closed nodes has: none where no node is closed (rule 7.17).
fn closed_lines(closed: &[u16]) -> usize
    ensures { result ≡ closed_lines closed.now }
{
    let count = closed.len();
    if count == 0 {
        return 0;
    }
    1 + count
}

// The answer for a job without a fault of its listed checks. Carrier 0 stands on the line behind NODES,
// LANES, the lanes, the section of the closed nodes and CARRIERS (rule 7.10); form's `carrier_line_lem` says
// that this is the line that the sections above a carrier give it.
fn answer_job(job: &JobNumbers, out: &mut [u8]) -> usize
    requires { None (checks_question (job_in job.now)) }
    ensures { Answering (JobAnswer (job_in job.now)) out.old out.new result }
{
    let mut table = [0u16; Job::TABLE];
    let mut distances = [0u16; Job::CARRIERS];
    let mut ticks = [0u32; Job::CARRIERS];
    let carriers = job.moves.len() / 2;
    let first = 4 + job.network.lanes.len() / 2 + closed_lines(job.network.closed);
    match plan_moves(job, &mut table, &mut distances, &mut ticks) {
        Ok(cost) => print_plan(carriers, &distances, &ticks, cost, out),
        Err(refusal) => print_refused(refusal.fault.number(), first + refusal.place, out),
    }
}

// The answer to a job text.
pub fn answer(text: &[u8], out: &mut [u8]) -> usize
    ensures { Answering
        (AnswerText text.now)
        out.old out.new
        result }
{
    let mut lanes = [0u16; Job::LANE_NUMBERS];
    let mut closed = [0u16; Job::NODES];
    let mut moves = [0u16; Job::MOVE_NUMBERS];
    let mut order = [0u16; Job::CARRIERS];
    match read_numbers(text, &mut lanes, &mut closed, &mut moves, &mut order) {
        Ok(counts) => {
            let job = JobNumbers {
                network: Network {
                    nodes: counts.nodes,
                    lanes: &lanes[..2 * counts.lanes],
                    closed: &closed[..counts.closed],
                },
                moves: &moves[..2 * counts.carriers],
                order: &order[..counts.carriers],
                dwell: counts.dwell,
            };
            answer_job(&job, out)
        }
        Err(refusal) => print_refused(refusal.fault.number(), refusal.place, out),
    }
}
