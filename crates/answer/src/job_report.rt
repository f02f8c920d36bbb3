// A job carried out: its table is made, a watch opened over it, its pins laid, and its log walked from hit to hit.
ghost use Rattle.std.specs.Prelude.{◌≡◌, true, IfOk, string_bytes, take};
ghost use Rattle.watch.specs.Ledger.{is_bound};
ghost use Rattle.watch.specs.Meaning.{ledger_of};
ghost use Rattle.job.specs.Answers.{content_of};
ghost use Rattle.job.specs.Spelling.{Valid};
ghost use Rattle.answer.specs.Answers.{with_pins, job_ledger, ReportOf, JobReport};

use crate::report_text::report_text;
use costs::pair::Pair;
use costs::plain::Plain;
use job::MAX_LOG;
use job::accepted::{Job, Kind, Pin};
use judge::judging::Judge;
use lines::printed::Printed;
use report::{ReportError, report_log};
use std::alloc::{AllocError, Global};
use tables::TraceTable;
use tables::pricing::{Difference, Mismatch, Mixed, Pricing};
use tables::summed::Summed;
use watch::Watch;

// The lines of the report of a job, whose log stands at the front of a list. Each kind has a table of its own type, so a
// match picks it.
pub(crate) fn job_report(
    heap: Global,
    job: &Job,
    log: &[u32; MAX_LOG],
) -> Result<String, AllocError>
    requires { Valid (content_of job.now log.now) }
    ensures { IfOk result (λ s. JobReport (content_of job.now log.now) job.now.kind (string_bytes s)) }
{
    match job.kind {
        Kind::Mismatch { bound } => report_with(heap, Mismatch, Plain::from(bound), job, log),
        Kind::Difference { delta, bound } => {
            report_with(heap, Difference { delta }, Plain::from(bound), job, log)
        }
        Kind::Mixed {
            delta,
            first,
            second,
        } => {
            let bound = Pair {
                first: Plain::from(first),
                second: Plain::from(second),
            };
            report_with(heap, Mixed { delta }, bound, job, log)
        }
    }
}

// The same with what a place costs, and the bound. Nothing of a job that was accepted is refused here.
fn report_with<P: Pricing + Drop>(
    heap: Global,
    pricing: P,
    bound: P::Value,
    job: &Job,
    log: &[u32; MAX_LOG],
) -> Result<String, AllocError>
where
    P::Value: Printed,
    requires valid { Valid (content_of job.now log.now) }
    requires usable { P.Pricing.usable pricing ≡ true }
    requires bound { is_bound P.Value.Cost.kind bound ≡ true }
    ensures { IfOk result (λ s. ReportOf P.Value.Cost.kind P.Value.Printed.parts (job_ledger P.Value.Cost.kind (P.Pricing.prices pricing) bound (content_of job.now log.now)) (content_of job.now log.now).log (string_bytes s)) }
{
    let judge = Judge::new(heap)?;
    let Ok(table) = Summed::new(pricing, job.size, job.trace()) else {
        unreachable()
    };
    let Ok(mut watch) = Watch::open(judge, table, bound) else {
        unreachable()
    };
    lay_pins(&mut watch, job.pins());
    match report_log(heap, &mut watch, events_of(job, log)) {
        Ok(found) => report_text(heap, job.trace().len(), &found),
        // no `From`, since the other case has no AllocError to become
        Err(ReportError::Memory) => Err(AllocError),
        Err(ReportError::Refused(_refusal)) => unreachable(),
    }
}

// The events of the job's log. They stay in the fixed list that was lent for them, so the job holds only their count.
fn events_of<'a>(job: &Job, log: &'a [u32; MAX_LOG]) -> &'a [u32]
    ensures { result.now ≡ take job.now.events log.now }
{
    &log[0..job.events()]
}

// Lays pins one after another. None of an accepted job is refused.
fn lay_pins<T: TraceTable>(watch: &mut Watch<T>, pins: &[Pin])
    ensures { ledger_of T.TraceTable.means watch.new ≡ with_pins (ledger_of T.TraceTable.means watch.old) pins.now }
{
    for pin in pins {
        let _ = watch.pin(pin.event, pin.number);
    }
}
