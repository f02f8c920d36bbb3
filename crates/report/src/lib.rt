// The report of a log: what a watch finds from its first event to its last.
#![tactic(auto)]

ghost use Rattle.std.specs.Prelude.{◌≡◌, ℕ, ◌+◌, ◌≤◌, [], ◌∷◌, ◌++◌, length, take, IfOk, IfErr, MatchResult, OnOk};
ghost use Rattle.watch.specs.Meaning.{ledger_of};
ghost use Rattle.report.specs.Reports.{Kept, Reported, NotReported};
ghost use Rattle.report.specs.Windows.{AllWindows};
ghost use Rattle.watch.specs.declared.failure.Failure.TheVariants.{Memory as NoMemory};

use costs::Cost;
use judge::sheet::Sheet;
use std::alloc::Global;
use tables::TraceTable;
use watch::Watch;
use watch::failure::Failure;
use watch::walk::NextRefusal;

// A window within the bound.
#[derive(Drop)]
pub struct Hit<C> {
    // how many events of the log had been fed
    pub end: usize,
    pub cost: C,
    // the number of event 1, of event 2, ..
    pub numbers: Vec<u32>,
}

#[derive(Drop)]
pub struct Report<C> {
    pub hits: Vec<Hit<C>>,
    // how many windows lay within the bound, over it, and had no renumbering
    pub counts: (usize, usize, usize),
}

// Why there is no report.
pub type ReportError = Failure<NextRefusal>;

// Feeds a whole log to a watch, from hit to hit, and reports what was found. Refused where an event of the log is.
// When the window was empty before it, the hits are exactly the windows of the log that lie within the bound.
pub fn report_log<T: TraceTable>(
    heap: Global,
    watch: &mut Watch<T>,
    log: &[u32],
) -> Result<Report<T::Value>, ReportError>
    ensures reported { MatchResult result (λ found. Reported T.Value.Cost.kind (ledger_of T.TraceTable.means watch.old) log.now found) (λ e. NotReported (ledger_of T.TraceTable.means watch.old) log.now e) }
    ensures windows { IfOk result (λ found. ((ledger_of T.TraceTable.means watch.old).table.window ≡ [] → AllWindows T.Value.Cost.kind (ledger_of T.TraceTable.means watch.old) log.now found)) }
{
    let size = watch.size() as usize;
    let mut sheet = Sheet::new(heap)?;
    let mut hits = Vec::new(heap);
    let mut counts = (0, 0, 0);
    let mut fed = 0;
    // No range or iterator gives these steps: how far one goes is known only from its own answer.
    while fed < log.len() {
        let next = watch.next_sheet(log, fed + 1, &mut sheet)?;
        fed += next.fed;
        counts = added(counts, next.counts);
        keep(heap, &mut hits, fed, next.hit, size, &sheet.numbers)?;
    }
    Ok(Report { hits, counts })
}

// Adds a hit with its numbers, the first ones of a list, to the hits found so far.
fn keep<C: Cost>(
    heap: Global,
    hits: &mut Vec<Hit<C>>,
    end: usize,
    hit: Option<C>,
    size: usize,
    numbers: &[u32],
) -> Result<(), ReportError>
    ensures kept { OnOk result (Kept end hit (take size numbers.now) hits.old.items hits.new.items) }
    ensures failed { IfErr result (λ e. e ≡ NoMemory) }
{
    if let Some(cost) = hit {
        let numbers = Vec::from_slice(heap, &numbers[..size.min(numbers.len())])?;
        hits.push(Hit { end, cost, numbers })?;
    }
    Ok(())
}

// The counts of two stretches of a log together.
fn added(a: (usize, usize, usize), b: (usize, usize, usize)) -> (usize, usize, usize)
    requires { a.0 + a.1 + a.2 + (b.0 + b.1 + b.2) ≤ 18446744073709551615 }
    ensures { result ≡ (a.0 + b.0, a.1 + b.1, a.2 + b.2) }
{
    (a.0 + b.0, a.1 + b.1, a.2 + b.2)
}
