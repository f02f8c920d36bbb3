// The summing table as a trace table, one text for every pricing.
ghost use Rattle.std.specs.Prelude.{◌≡◌, ℕ, ◌<◌, ◌≤◌, length, take};
ghost use Rattle.tables.specs.Limits.{max_size};
ghost use Rattle.tables.specs.Refusals.{told};
ghost use Rattle.tables.specs.Summing.{add_grade, all_within, make_answer};
ghost use Rattle.tables.specs.Summed.{summed_table};
ghost use Rattle.tables.specs.Rows.{Started, Placed};
ghost use Rattle.tables.specs.Held.{summed_sound};

use super::Summed;
use crate::grade::Grade;
use crate::pricing::Pricing;
use crate::refusal::Refusal;
use crate::ring::Ring;
use crate::{MAX_SIZE, TraceTable, is_within};
use arrayvec::ArrayVec;
use costs::Cost;

impl<P: Pricing> TraceTable for Summed<P> {
    type Value = P::Value;

    ghost means = { summed_table P.Value.Cost.kind P.Pricing.prices };

    ghost sound = { λ t. summed_sound t P.Value.Cost.kind P.Value.Cost.laws P.Pricing.prices P.Pricing.small };

    fn size(&self) -> u32 {
        self.size
    }

    fn places(&self) -> u32 {
        self.window.places() as u32
    }

    fn held(&self) -> u32 {
        self.window.len() as u32
    }

    fn take(&mut self, event: u32) -> Result<(), Refusal> {
        if !is_within(self.size, event) {
            return Err(Refusal::Event);
        }
        self.window.push(event);
        Ok(())
    }

    // The sum over the places that hold the event, from the newest to the oldest. Here and below a place has an index,
    // since the ring is no slice that could be walked over beside the trace; and the walks are three, since what they write
    // differs, and a walk in common would take a closure that writes, of which a proof knows nothing.
    fn pair(&self, event: u32, number: u32) -> Grade<P::Value> {
        if !is_within(self.size, event) || !is_within(self.size, number) {
            return Grade::Closed;
        }
        let mut sum = Grade::Open(P::Value::zero());
        for j in (0..self.window.len()).rev() {
            if self.window.event(j) == event {
                sum = plus_place(&self.pricing, self.trace[j], number, sum);
            }
        }
        sum
    }

    // The same for all numbers in one walk over the window.
    fn row(&self, event: u32, row: &mut [Grade<P::Value>]) {
        if !is_within(self.size, event) {
            start_row(0, row);
            return;
        }
        start_row(self.size as usize, row);
        for j in (0..self.window.len()).rev() {
            if self.window.event(j) == event {
                add_place(&self.pricing, self.size as usize, self.trace[j], row);
            }
        }
    }

    // All rows in one walk.
    fn grid(&self, grades: &mut [Grade<P::Value>]) {
        let size = self.size as usize;
        if grades.len() != size * size {
            return;
        }
        start_row(size * size, grades);
        for j in (0..self.window.len()).rev() {
            let at = (self.window.event(j) as usize - 1) * size;
            let row = &mut grades[at..at + size];
            add_place(&self.pricing, size, self.trace[j], row);
        }
    }
}

// Opens the first places of a row at zero, as many as `open` says, and closes the others.
fn start_row<C: Cost>(open: usize, row: &mut [Grade<C>])
    ensures { Started C.Cost.kind «open» (length row.old) row.new }
{
    for (c, grade) in row.iter_mut().enumerate() {
        *grade = if c < open {
            Grade::Open(C::zero())
        } else {
            Grade::Closed
        };
    }
}

// Adds what a place with that trace number costs, at each number up to the size.
fn add_place<P: Pricing>(pricing: &P, size: usize, trace: u32, row: &mut [Grade<P::Value>])
    requires { size ≤ max_size }
    ensures { Placed P.Value.Cost.kind (P.Pricing.prices pricing.now trace) size row.old row.new }
{
    let end = size.min(row.len());
    for (c, sum) in row[..end].iter_mut().enumerate() {
        *sum = plus_place(pricing, trace, c as u32 + 1, *sum);
    }
}

// The sum so far with one place more.
fn plus_place<P: Pricing>(
    pricing: &P,
    trace: u32,
    number: u32,
    sum: Grade<P::Value>,
) -> Grade<P::Value>
    ensures { result ≡ add_grade P.Value.Cost.kind (P.Pricing.prices pricing.now trace number) sum }
{
    let Grade::Open(rest) = sum else {
        return Grade::Closed;
    };
    let Grade::Open(cost) = pricing.price(trace, number) else {
        return Grade::Closed;
    };
    Grade::Open(cost.plus(rest))
}

impl<P: Pricing + Drop> Summed<P> {
    // A table with an empty window, or the refusal of a size, a trace or a delta that is not allowed.
    pub fn new(pricing: P, size: u32, trace: &[u32]) -> Result<Summed<P>, Refusal>
        ensures { told (summed_table P.Value.Cost.kind P.Pricing.prices) result ≡ make_answer P.Value.Cost.kind (P.Pricing.prices pricing) (P.Pricing.usable pricing) size trace.now }
    {
        if !is_within(MAX_SIZE, size) {
            return Err(Refusal::Size);
        }
        let trace = ArrayVec::try_from(trace).map_err(|_too_long| Refusal::Trace)?;
        if trace.is_empty() || !are_within(size, &trace) {
            return Err(Refusal::Trace);
        }
        if !pricing.is_usable() {
            return Err(Refusal::Delta);
        }
        Ok(Summed {
            pricing,
            size,
            window: Ring::new(trace.len()),
            trace,
        })
    }
}

// Whether each number of the list is one of 1 to size.
fn are_within(size: u32, numbers: &[u32]) -> bool
    ensures { result ≡ all_within size numbers.now }
{
    numbers.iter().all(|n| is_within(size, *n))
}
