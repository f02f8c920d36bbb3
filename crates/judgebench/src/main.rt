// Judges the windows of a random log one after another, for measuring, and prints how the verdicts fell and what the
// costs come to. Arguments: the kind of table, size, places, delta, bound and number of windows.
#![tactic(auto)]

ghost use Rattle.std.specs.Prelude.{◌≡◌};
ghost use Rattle.judgebench.specs.Numbers.{numbers_of};

use anyhow::anyhow;
use costs::pair::Pair;
use costs::plain::Plain;
use judge::judging::Judge;
use judge::sheet::Sheet;
use judge::verdict::Verdict;
use random::Random;
use shown::parts::Parts;
use std::alloc::Global;
use std::{env, fmt};
use tables::TraceTable;
use tables::pricing::{Difference, Mismatch, Mixed, Pricing};
use tables::summed::Summed;

// What to measure.
#[derive(Clone, Copy)]
struct Plan {
    size: u32,
    places: u32,
    windows: u32,
}

fn main(rt: HostRuntime) -> anyhow::Result<()> {
    run(&rt)
}

fn run(rt: &HostRuntime) -> anyhow::Result<()> {
    let args: Vec<String> = env::args(rt)?.collect(rt.alloc())?;
    let [_, kind, size, places, delta, bound, windows, ..] = args.as_slice() else {
        return Err(anyhow!("judgebench KIND SIZE PLACES DELTA BOUND WINDOWS"));
    };
    let plan = Plan {
        size: size.parse()?,
        places: places.parse()?,
        windows: windows.parse()?,
    };
    let delta = delta.parse()?;
    let bound = Plain::from(bound.parse::<u32>()?);
    // the words of a job, and as there each picks a table of its own type
    match kind.as_str() {
        "mismatch" => measure(rt, Mismatch, plan, bound),
        "difference" => measure(rt, Difference { delta }, plan, bound),
        "mixed" => measure(
            rt,
            Mixed { delta },
            plan,
            Pair {
                first: bound,
                second: Plain::from(0),
            },
        ),
        _ => Err(anyhow!("the kind is mismatch, difference or mixed")),
    }
}

// How the verdicts fell, and what the least costs come to.
#[derive(Clone, Copy, Default)]
struct Counts {
    within: u64,
    over: u64,
    none: u64,
    sums: (i64, i64),
}

impl Counts {
    fn add<C: Parts + Drop>(&mut self, verdict: Verdict<C>) {
        match verdict {
            Verdict::Within(cost) => {
                self.within = self.within.wrapping_add(1);
                self.add_cost(&cost);
            }
            Verdict::Over(cost) => {
                self.over = self.over.wrapping_add(1);
                self.add_cost(&cost);
            }
            Verdict::None => self.none = self.none.wrapping_add(1),
        }
    }

    fn add_cost<C: Parts>(&mut self, cost: &C) {
        let (first, second) = numbers(cost);
        self.sums = (
            self.sums.0.wrapping_add(first),
            self.sums.1.wrapping_add(second),
        );
    }
}

// A cost as two numbers, the second 0 where it has but one.
fn numbers<C: Parts>(cost: &C) -> (i64, i64)
    ensures { result ≡ numbers_of (C.Parts.parts cost.now) }
{
    let (first, second) = cost.parts();
    match second {
        None => (first.value(), 0),
        Some(second) => (first.value(), second.value()),
    }
}

impl fmt::Display for Counts {
    fn fmt<W: fmt::Write>(&self, f: &mut fmt::Formatter<W>) -> fmt::Result {
        let Counts {
            within,
            over,
            none,
            sums: (first, second),
        } = *self;
        write!(
            f,
            "within {within}, over {over}, none {none}, costs {first} {second}"
        )
    }
}

// A table over a random trace, with a window full of random events.
fn full_table<P: Pricing + Drop>(
    heap: Global,
    random: &mut Random,
    pricing: P,
    plan: Plan,
) -> anyhow::Result<Summed<P>> {
    // place by place: a trace that is too long for a table is drawn all the same, in memory that grows as it is drawn
    let mut trace = Vec::new(heap);
    for _ in 0..plan.places {
        trace.push(random.one_to(plan.size))?;
    }
    let Ok(mut table) = Summed::new(pricing, plan.size, &trace) else {
        return Err(anyhow!("the table is refused"));
    };
    for _ in 0..plan.places {
        let _ = table.take(random.one_to(plan.size));
    }
    Ok(table)
}

// Judges one window after another and prints the counts.
fn measure<P: Pricing + Drop>(
    rt: &HostRuntime,
    pricing: P,
    plan: Plan,
    bound: P::Value,
) -> anyhow::Result<()>
where
    P::Value: Parts,
{
    let heap = rt.alloc();
    let mut random = Random::new(1);
    let mut table = full_table(heap, &mut random, pricing, plan)?;
    let mut judge = Judge::new(heap)?;
    let mut sheet = Sheet::new(heap)?;
    let mut counts = Counts::default();
    for _ in 0..plan.windows {
        let _ = table.take(random.one_to(plan.size));
        // a refused judgement counts as none of the three
        if let Ok(verdict) = judge.judge_sheet(&table, &bound, &mut sheet) {
            counts.add(verdict);
        }
    }
    println!(rt; "{} windows: {counts}", plan.windows)?;
    Ok(())
}
