// Leads the worked trace through a table, its pins, the judge and the watch, step by step, and prints what each call
// answers.
#![tactic(auto)]

use shown::grades::Grades;
use shown::trials::{try_pins, try_refusals};
use shown::worked::{EVENTS, NUMBERS, Priced, SIZE, TRACE, judge_kinds, worked_table};
use tables::TraceTable;
use tables::pins::Pins;
use tables::pricing::Difference;

mod calls;
mod hits;

fn main(rt: HostRuntime) -> anyhow::Result<()> {
    run(&rt)
}

fn run(rt: &HostRuntime) -> anyhow::Result<()> {
    println!(rt; "difference table: size {SIZE}, delta 1, trace {TRACE:?}")?;
    let mut pins = Pins::over(worked_table(Difference { delta: 1 })?);
    fill(rt, &mut pins)?;
    println!(rt; "\n{}\n", Grades(&pins))?;
    try_pins(rt, &mut pins)?;
    println!(rt; "")?;
    try_refusals(rt, &mut pins)?;
    println!(rt; "\nrenumbering {NUMBERS:?}")?;
    println!(rt;
        "{}\n",
        Priced {
            table: &pins,
            numbers: NUMBERS
        }
    )?;
    println!(rt; "{}\n", judge_kinds(rt.alloc())?)?;
    calls::conduct_steps(rt)?;
    hits::walk_log(rt)
}

// Takes the events of the window one by one, with one line for all, where walkthrough prints one for each.
fn fill<T: TraceTable>(rt: &impl Print, table: &mut T) -> anyhow::Result<()> {
    for event in EVENTS {
        let _ = table.take(event);
    }
    let held = table.held();
    let places = table.places();
    println!(rt; "takes {EVENTS:?}: {held} of {places} held")?;
    Ok(())
}
