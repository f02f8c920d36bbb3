// Trace tables: a window of log events, and what each pair of an event and a house number costs.
//
// What a table means is the ghost record `means`; the law `sound` says what holds of every table. Code that works
// over any trace table is proved against these two and the contracts below, and against nothing else.
#![tactic(auto)]

ghost use Rattle.std.specs.Prelude.{◌≡◌, ◌*◌, length, ◌≢◌};
ghost use Rattle.tables.specs.Refusals.{answered};
ghost use Rattle.tables.specs.Table.{Table, Sound, within, take_answer, taken, pair_at, row_at, GridOf};

use costs::Cost;

pub mod grade;
pub mod pinning;
pub mod pins;
pub mod pricing;
pub mod refusal;
pub mod ring;
pub mod summed;

use grade::Grade;
use refusal::Refusal;

// The largest size: events and house numbers are 1 to the size.
pub const MAX_SIZE: u32 = 32;

// The largest number of places of a trace.
pub const MAX_PLACES: usize = 64;

// The largest delta of the tables that have one.
pub const MAX_DELTA: u32 = 31;

pub trait TraceTable {
    type Value: Cost;

    // size, places, window and pairing
    ghost means: { Self → Table Self.Value };

    // S: events and house numbers are 1 to S.
    fn size(&self) -> u32
        ensures { result ≡ (means self.now).size };

    // M: the number of places of the trace, and of events that the window can hold.
    fn places(&self) -> u32
        ensures { result ≡ (means self.now).places };

    // The number of events in the window.
    fn held(&self) -> u32
        ensures { result ≡ length (means self.now).window };

    // One event more in the window, or the refusal of one that is 0 or above S, which alters nothing.
    fn take(&mut self, event: u32) -> Result<(), Refusal>
        ensures answer { answered result ≡ take_answer (means self.old) event }
        ensures after { means self.new ≡ taken (means self.old) event };

    // The grade of the pair of an event and a number at the window.
    fn pair(&self, event: u32, number: u32) -> Grade<Self::Value>
        ensures { result ≡ pair_at (means self.now) event number };

    // The pairs of one event in one call: place c - 1 becomes the grade of its pair with number c, and each place past
    // the size closed.
    fn row(&self, event: u32, row: &mut [Grade<Self::Value>])
        ensures { row.new ≡ row_at (means self.now) event (length row.old) }
    {
        let top = self.size() as usize;
        for (c, grade) in row.iter_mut().enumerate() {
            *grade = if c < top {
                self.pair(event, c as u32 + 1)
            } else {
                Grade::Closed
            };
        }
    }

    // The pairs of all events in one call, one row after another: in a list of S * S places the one of event r and
    // number c becomes the grade at (r - 1) * S + (c - 1). A list of another length stays as it was.
    fn grid(&self, grades: &mut [Grade<Self::Value>])
        ensures written { length grades.old ≡ (means self.now).size * (means self.now).size → GridOf (means self.now) grades.new }
        ensures kept { (length grades.old ≢ (means self.now).size * (means self.now).size) → grades.new ≡ grades.old }
    {
        let top = self.size() as usize;
        if grades.len() != top * top {
            return;
        }
        // by index: of a list that chunks_exact_mut or split_at_mut lent out in a loop no proof knows what it holds
        for r in 0..top {
            self.row(r as u32 + 1, &mut grades[r * top..r * top + top]);
        }
    }

    ghost sound: { (t : Self) → Sound Self.Value.Cost.kind (means t) };
}

// Whether n is one of 1 to the size.
pub fn is_within(size: u32, n: u32) -> bool
    ensures { result ≡ within size n }
{
    1 <= n && n <= size
}
