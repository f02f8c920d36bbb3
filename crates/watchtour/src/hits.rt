// Walks a short log from hit to hit.
use anyhow::anyhow;
use costs::plain::Plain;
use judge::judging::Judge;
use judge::sheet::Sheet;
use shown::lists::{Numbers, first};
use tables::TraceTable;
use tables::pricing::Mismatch;
use tables::summed::Summed;
use watch::Watch;

const SIZE: u32 = 2;

const TRACE: [u32; 3] = [1, 2, 1];

const LOG: [u32; 5] = [2, 1, 2, 2, 1];

pub fn walk_log(rt: &HostRuntime) -> anyhow::Result<()> {
    println!(rt; "hits: mismatch, size {SIZE}, trace {TRACE:?}, bound 1, log {LOG:?}")?;
    let Ok(table) = Summed::new(Mismatch, SIZE, &TRACE) else {
        return Err(anyhow!("the table is refused"));
    };
    let judge = Judge::new(rt.alloc())?;
    let Ok(mut watch) = Watch::open(judge, table, Plain::from(1)) else {
        return Err(anyhow!("the watch is not opened"));
    };
    let mut sheet = Sheet::new(rt.alloc())?;
    print_hits(rt, &mut watch, &mut sheet)
}

// Goes from hit to hit up to the end of the log. Each hit is at least one event further on, so the turns are bounded; no
// iterator gives them, since how far one goes is known only from its own answer.
fn print_hits<T: TraceTable<Value = Plain>>(
    rt: &impl Print,
    watch: &mut Watch<T>,
    sheet: &mut Sheet<Plain>,
) -> anyhow::Result<()> {
    let mut position = 1usize;
    let mut counts = (0usize, 0usize, 0usize);
    for _ in 0..LOG.len() + 1 {
        let Ok(next) = watch.next_sheet(&LOG, position, sheet) else {
            return Err(anyhow!("the walk is refused"));
        };
        position = position.saturating_add(next.fed);
        counts.0 = counts.0.saturating_add(next.counts.0);
        counts.1 = counts.1.saturating_add(next.counts.1);
        counts.2 = counts.2.saturating_add(next.counts.2);
        let Some(cost) = next.hit else {
            break;
        };
        print_hit(rt, position, cost, &sheet.numbers)?;
    }
    let (within, over, none) = counts;
    println!(rt; "end {within} {over} {none}")?;
    Ok(())
}

// A hit: where its window begins, its cost, and the numbers of its renumbering. The position is the one after it.
fn print_hit(rt: &impl Print, position: usize, cost: Plain, numbers: &[u32]) -> anyhow::Result<()> {
    let begin = position.saturating_sub(TRACE.len());
    let numbers = Numbers(first(numbers, SIZE as usize));
    println!(rt; "hit at {begin}: cost {cost}, numbers{numbers}")?;
    Ok(())
}
