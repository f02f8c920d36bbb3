// The lines of a report.
ghost use Rattle.std.specs.Prelude.{◌≡◌, ◌+◌, ◌^◌, ◌<◌, ◌≤◌, IfOk, string_bytes};
ghost use Rattle.lines.specs.Lines.{Adds};
ghost use Rattle.answer.specs.Lines.{hits_bytes, report_bytes};

use costs::Cost;
use lines::printed::Printed;
use lines::{push_count_line, push_hit};
use report::{Hit, Report};
use std::alloc::{AllocError, Global};

// The lines of a report on a trace of that many places.
pub(crate) fn report_text<C: Cost + Printed>(
    heap: Global,
    places: usize,
    report: &Report<C>,
) -> Result<String, AllocError>
    requires places { 1 ≤ places }
    requires counts { report.now.counts.0 + report.now.counts.1 + report.now.counts.2 < 2 ^ 64 }
    ensures { IfOk result (λ s. string_bytes s ≡ report_bytes C.Printed.parts places report.now) }
{
    let (within, over, none) = report.counts;
    let mut out = String::new(heap);
    push_count_line(&mut out, "report", &[within + over + none])?;
    push_hits(&mut out, places, &report.hits)?;
    push_count_line(&mut out, "end", &[within, over, none])?;
    Ok(out)
}

// A line for each hit.
fn push_hits<C: Cost + Printed>(
    out: &mut String,
    places: usize,
    hits: &[Hit<C>],
) -> Result<(), AllocError>
    requires { 1 ≤ places }
    ensures { Adds result out.old out.new (hits_bytes C.Printed.parts places hits.now) }
{
    for hit in hits {
        let begin = hit.end.saturating_sub(places - 1);
        push_hit(out, begin, &hit.cost, &hit.numbers)?;
    }
    Ok(())
}
