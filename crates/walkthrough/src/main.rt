// Leads the worked trace through a table, its pins and the judge, step by step, and prints what each call answers.
#![tactic(auto)]

use costs::plain::Plain;
use shown::grades::Grades;
use shown::trials::{try_pins, try_refusals};
use shown::verdicts::Told;
use shown::worked::{
    EVENTS, NUMBERS, Priced, SIZE, TRACE, judge_kinds, judge_window, worked_table,
};
use tables::TraceTable;
use tables::pins::Pins;
use tables::pricing::Difference;

fn main(rt: HostRuntime) -> anyhow::Result<()> {
    run(&rt)
}

fn run(rt: &HostRuntime) -> anyhow::Result<()> {
    println!(rt; "difference table: size {SIZE}, delta 1, trace {TRACE:?}")?;
    let mut pins = Pins::over(worked_table(Difference { delta: 1 })?);
    fill(rt, &mut pins)?;
    println!(rt; "\n{}\n", Grades(&pins))?;
    try_pins(rt, &mut pins)?;
    println!(rt; "\ntake 6:{}", Told(pins.take(6)))?;
    try_refusals(rt, &mut pins)?;
    println!(rt; "\nrenumbering {NUMBERS:?}")?;
    println!(rt;
        "{}\n",
        Priced {
            table: &pins,
            numbers: NUMBERS
        }
    )?;
    judge_all(rt)
}

// Takes the events of the window one by one, with a line for each, where watchtour prints one for all.
fn fill<T: TraceTable>(rt: &impl Print, table: &mut T) -> anyhow::Result<()> {
    for event in EVENTS {
        let answer = table.take(event);
        let held = table.held();
        let places = table.places();
        println!(rt; "take {event} ({held} of {places} held):{}", Told(answer))?;
    }
    Ok(())
}

// All the judgements of the worked window.
fn judge_all(rt: &HostRuntime) -> anyhow::Result<()> {
    for bound in [6u32, 5] {
        let judged = judge_window(rt.alloc(), Difference { delta: 1 }, Plain::from(bound))?;
        println!(rt; "difference, delta 1, bound {bound}:{judged}")?;
    }
    println!(rt; "{}", judge_kinds(rt.alloc())?)?;
    Ok(())
}
