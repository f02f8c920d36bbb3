// Tries all renumberings of the windows of random jobs, and compares what it finds with the report of each job. It
// reckons with plain numbers of its own and shares no code with the matcher but the call from a text to its answer.
#![tactic(auto)]

ghost use Rattle.std.specs.Prelude.{◌<◌, vec_len};

use answer::{Answer, answer_text};
use anyhow::{Context, anyhow, ensure};
use itertools::Itertools;
use random::Random;
use std::alloc::{AllocError, Global};
use std::fmt;
use std::ops::AddAssign;

// The largest size: 720 renumberings a window.
const MAX_SIZE: u32 = 6;

const JOBS: u32 = 400;

#[derive(Clone, Copy, PartialEq, Eq)]
enum Kind {
    Mismatch,
    Difference,
    Mixed,
}

impl Kind {
    // A cost of this kind, of whose numbers only a mixed one has the second.
    fn cost(self, first: u32, second: u32) -> Cost {
        match self {
            Kind::Mismatch | Kind::Difference => Cost { first, second: 0 },
            Kind::Mixed => Cost { first, second },
        }
    }
}

impl fmt::Display for Kind {
    fn fmt<W: fmt::Write>(&self, f: &mut fmt::Formatter<W>) -> fmt::Result {
        match self {
            Kind::Mismatch => write!(f, "mismatch"),
            Kind::Difference => write!(f, "difference"),
            Kind::Mixed => write!(f, "mixed"),
        }
    }
}

// A cost as two numbers, the second 0 where the kind has but one. The second counts where the first are equal.
#[derive(Clone, Copy, Default, PartialEq, Eq, PartialOrd, Ord)]
struct Cost {
    first: u32,
    second: u32,
}

impl AddAssign for Cost {
    fn add_assign(&mut self, other: Cost) {
        self.first = self.first.saturating_add(other.first);
        self.second = self.second.saturating_add(other.second);
    }
}

#[derive(Clone, Copy)]
enum Verdict {
    Within(Cost),
    Over,
    None,
}

// How many windows lay within the bound, over it, and had no renumbering.
#[derive(Clone, Copy, Default)]
struct Counts {
    within: u64,
    over: u64,
    none: u64,
}

impl Counts {
    // One window more.
    fn count(&mut self, verdict: Verdict) {
        let counted = match verdict {
            Verdict::Within(_) => &mut self.within,
            Verdict::Over => &mut self.over,
            Verdict::None => &mut self.none,
        };
        *counted = counted.saturating_add(1);
    }
}

impl AddAssign for Counts {
    fn add_assign(&mut self, other: Counts) {
        self.within = self.within.saturating_add(other.within);
        self.over = self.over.saturating_add(other.over);
        self.none = self.none.saturating_add(other.none);
    }
}

// A job of any kind: delta and a second number are drawn for each, so that all kinds are tried with the same numbers, and a
// kind without them passes over them.
#[derive(Drop)]
struct Job {
    kind: Kind,
    size: u32,
    delta: u32,
    bound: Cost,
    pins: Vec<(u32, u32)>,
    trace: Vec<u32>,
    log: Vec<u32>,
    ghost placed: { 0 < vec_len trace },
}

impl Job {
    // What one place costs, None where it closes the pair.
    fn place_cost(&self, trace: u32, number: u32) -> Option<Cost> {
        let gap = trace.abs_diff(number);
        let differs = u32::from(gap != 0);
        match self.kind {
            Kind::Mismatch => Some(self.kind.cost(differs, gap)),
            _ if gap > self.delta => None,
            Kind::Difference => Some(self.kind.cost(gap, gap)),
            Kind::Mixed => Some(self.kind.cost(differs, gap)),
        }
    }

    // What a renumbering of a window of the log costs, None where it is not allowed.
    fn cost(&self, window: &[u32], numbers: &[u32]) -> Option<Cost> {
        let keeps_pins = self.pins.iter().all(|(event, number)| number_of(numbers, *event)
            == Some(*number));
        if !keeps_pins {
            return None;
        }
        let mut total = Cost::default();
        for (trace, event) in self.trace.iter().zip(window) {
            total += self.place_cost(*trace, number_of(numbers, *event)?)?;
        }
        Some(total)
    }

    // The verdict on a window of the log, when all these renumberings are tried.
    fn verdict(&self, window: &[u32], renumberings: &[Vec<u32>]) -> Verdict {
        let least = renumberings
            .iter()
            .filter_map(|numbers| self.cost(window, numbers))
            .min();
        match least {
            None => Verdict::None,
            Some(cost) if cost <= self.bound => Verdict::Within(cost),
            Some(_) => Verdict::Over,
        }
    }
}

fn number_of(numbers: &[u32], event: u32) -> Option<u32> {
    let place = event.checked_sub(1)?;
    numbers.get(place as usize).copied()
}

// The text of a job.
impl fmt::Display for Job {
    fn fmt<W: fmt::Write>(&self, f: &mut fmt::Formatter<W>) -> fmt::Result {
        let kind = self.kind;
        let size = self.size;
        write!(f, "{kind} size 1 {size} bounds")?;
        let delta = self.delta;
        let Cost { first, second } = self.bound;
        match kind {
            Kind::Mismatch => write!(f, " 1 {first}")?,
            Kind::Difference => write!(f, " 2 {delta} {first}")?,
            Kind::Mixed => write!(f, " 3 {delta} {first} {second}")?,
        }
        let count = self.pins.len().saturating_mul(2);
        write!(f, " pins {count}")?;
        for (event, number) in &self.pins {
            write!(f, " {event} {number}")?;
        }
        write_section(f, "trace", &self.trace)?;
        write_section(f, "log", &self.log)
    }
}

fn write_section<W: fmt::Write>(
    f: &mut fmt::Formatter<W>,
    word: &str,
    numbers: &[u32],
) -> fmt::Result {
    let count = numbers.len();
    write!(f, " {word} {count}")?;
    for number in numbers {
        write!(f, " {number}")?;
    }
    Ok(())
}

fn main(rt: HostRuntime) -> anyhow::Result<()> {
    run(&rt)
}

fn run(rt: &HostRuntime) -> anyhow::Result<()> {
    for kind in [Kind::Mismatch, Kind::Difference, Kind::Mixed] {
        compare_kind(rt, kind)?;
    }
    Ok(())
}

// Compares random jobs of a kind, and prints how many windows of each verdict agreed.
fn compare_kind(rt: &HostRuntime, kind: Kind) -> anyhow::Result<()> {
    let mut random = Random::new(20261118);
    let mut total = Counts::default();
    for _ in 0..JOBS {
        let job = random_job(rt.alloc(), &mut random, kind)?;
        total += compare_job(rt.alloc(), &job)?;
    }
    let Counts { within, over, none } = total;
    println!(rt; "{kind}: {JOBS} jobs agree; windows within {within}, over {over}, none {none}")?;
    Ok(())
}

fn random_job(heap: Global, random: &mut Random, kind: Kind) -> Result<Job, AllocError> {
    let size = random.one_to(MAX_SIZE);
    let places = random.one_to(8);
    let events = random.below(24);
    Ok(Job {
        kind,
        size,
        bound: kind.cost(random.below(6), random.below(6)),
        delta: random.below(5),
        pins: random_pins(heap, random, size)?,
        trace: random.list(heap, places, size)?,
        log: random.list(heap, events, size)?,
    })
}

// No pins in half of the jobs, otherwise one or two that do not meet.
fn random_pins(
    heap: Global,
    random: &mut Random,
    size: u32,
) -> Result<Vec<(u32, u32)>, AllocError> {
    let mut pins = Vec::new(heap);
    if random.below(2) == 0 {
        return Ok(pins);
    }
    let first = random.one_to(size);
    pins.push((first, 1))?;
    let second = random.one_to(size);
    if second != first {
        pins.push((second, 2))?;
    }
    Ok(pins)
}

// All orders of the numbers 1 to the size.
fn renumberings(heap: Global, size: u32) -> Result<Vec<Vec<u32>>, AllocError> {
    (1..=size)
        .permutations(heap, size as usize)?
        .try_collect(heap)
}

// Compares the report of a job, window by window. The log is an array, as the call for the answer is lent one.
fn compare_job(heap: Global, job: &Job) -> anyhow::Result<Counts> {
    let text = format!(in heap; "{job}")?;
    let mut log = [0; 4096];
    let Answer::Report(report) = answer_text(heap, text.as_bytes(), &mut log)? else {
        return Err(anyhow!("a job is refused"));
    };
    let mut lines = report.lines();
    let places = job.trace.len();
    let windows = job.log.windows(places).count();
    expect_line(lines.next(), "report", &[windows as u64])?;
    let renumberings = renumberings(heap, job.size)?;
    let mut counts = Counts::default();
    for (index, window) in job.log.windows(places).enumerate() {
        let verdict = job.verdict(window, &renumberings);
        counts.count(verdict);
        if let Verdict::Within(cost) = verdict {
            let position = index.saturating_add(1);
            compare_hit(heap, job, window, position, cost, lines.next())?;
        }
    }
    expect_line(
        lines.next(),
        "end",
        &[counts.within, counts.over, counts.none],
    )?;
    ensure!(lines.next().is_none(), "the report goes on");
    Ok(counts)
}

// A line that is its word and these numbers.
fn expect_line(line: Option<&str>, word: &str, numbers: &[u64]) -> anyhow::Result<()> {
    let line = line.context("the report ends too soon")?;
    let mut fields = line.split(' ');
    ensure!(
        fields.next() == Some(word),
        "a line begins with another word"
    );
    for number in numbers {
        let field = fields.next().context("a line has too few numbers")?;
        ensure!(field.parse::<u64>()? == *number, "a count differs");
    }
    ensure!(fields.next().is_none(), "a line has too many numbers");
    Ok(())
}

// A hit: its position, the least cost, and a renumbering that is allowed at that cost.
fn compare_hit(
    heap: Global,
    job: &Job,
    window: &[u32],
    position: usize,
    least: Cost,
    line: Option<&str>,
) -> anyhow::Result<()> {
    let line = line.context("a hit is missing")?;
    let mut numbers: Vec<u32> = Vec::new(heap);
    for field in line.split(' ') {
        numbers.push(field.parse()?)?;
    }
    let (at, cost, own) = match (numbers.as_slice(), job.kind) {
        ([at, first, second, own @ ..], Kind::Mixed) => {
            (*at, Kind::Mixed.cost(*first, *second), own)
        }
        ([at, first, own @ ..], Kind::Mismatch | Kind::Difference) => {
            (*at, job.kind.cost(*first, 0), own)
        }
        _ => return Err(anyhow!("a hit has too few numbers")),
    };
    ensure!(at as usize == position, "a hit stands at another position");
    ensure!(cost == least, "a cost is not the least");
    ensure!(
        is_renumbering(own, job.size) && job.cost(window, own) == Some(cost),
        "a renumbering is not allowed at that cost"
    );
    Ok(())
}

// Whether these are the numbers 1 to size in some order.
fn is_renumbering(numbers: &[u32], size: u32) -> bool {
    numbers.len() == size as usize && (1..=size).all(|number| numbers.contains(&number))
}
