// From the text of a job to the bytes of its answer.
#![tactic(auto)]

ghost use Rattle.std.specs.Prelude.{◌≡◌, IfOk};
ghost use Rattle.job.specs.Reading.{read, events_read, written};
ghost use Rattle.answer.specs.Answers.{AnswerTo};

use fault_text::fault_text;
use job::{MAX_LOG, read_job};
use job_report::job_report;
use std::alloc::{AllocError, Global};

mod fault_text;
mod job_report;
mod report_text;

// The lines of a report, or the line of a fault. This is no `Result`: a fault line is an answer like a report, and as an
// error it would leave by `?` together with want of memory.
#[derive(Drop)]
pub enum Answer {
    Report(String),
    Fault(String),
}

// Reads a job, its log into the lent list, carries it out, and answers the lines of its report; or the line of the
// first fault of the text. Fails only for want of memory. The lent list then holds the events that were read.
pub fn answer_text(
    heap: Global,
    text: &[u8],
    log: &mut [u32; MAX_LOG],
) -> Result<Answer, AllocError>
    ensures answer { IfOk result (AnswerTo (read text.now)) }
    ensures log { log.new ≡ written (events_read text.now) log.old }
{
    match read_job(text, log) {
        Ok(job) => {
            let lines = job_report(heap, &job, log)?;
            Ok(Answer::Report(lines))
        }
        Err(fault) => {
            let line = fault_text(heap, &fault)?;
            Ok(Answer::Fault(line))
        }
    }
}
