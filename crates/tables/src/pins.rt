// Pins over any trace table: an event that is pinned to a number has its pairs with all other numbers closed. The
// result is a trace table again.
ghost use Rattle.std.specs.Prelude.{◌≡◌, ℕ, ◌+◌, ◌≤◌, length};
ghost use Rattle.tables.specs.Refusals.{answered};
ghost use Rattle.tables.specs.Rows.{PinnedRow};
ghost use Rattle.tables.specs.Table.{take_answer, taken};
ghost use Rattle.tables.specs.Pins.{pins_in, no_pins, pinned, pin_answer, after_pin, unpin_answer, after_unpin, pin_at};
ghost use Rattle.std.proofs.Common.{rules};

use crate::TraceTable;
use crate::grade::Grade;
use crate::pinning::Pinning;
use crate::refusal::Refusal;

#[derive(Drop)]
pub struct Pins<T> {
    table: T,
    pins: Pinning,
}

impl<T: TraceTable> TraceTable for Pins<T> {
    type Value = T::Value;

    ghost means = { λ p. pinned (T.TraceTable.means p.table) (pins_in p.pins) };

    ghost sound = { Prim.search rules };

    fn size(&self) -> u32 {
        self.table.size()
    }

    fn places(&self) -> u32 {
        self.table.places()
    }

    fn held(&self) -> u32 {
        self.table.held()
    }

    fn take(&mut self, event: u32) -> Result<(), Refusal>
        ensures answer { answered result ≡ take_answer (pinned (T.TraceTable.means self.old.table) (pins_in self.old.pins)) event }
        ensures after { pinned (T.TraceTable.means self.new.table) (pins_in self.new.pins) ≡ taken (pinned (T.TraceTable.means self.old.table) (pins_in self.old.pins)) event }
        ensures below { T.TraceTable.means self.new.table ≡ taken (T.TraceTable.means self.old.table) event }
        ensures kept { self.new.pins ≡ self.old.pins }
    {
        self.table.take(event)
    }

    fn pair(&self, event: u32, number: u32) -> Grade<T::Value> {
        match self.pin_of(event) {
            Some(pin) if pin != number => Grade::Closed,
            _ => self.table.pair(event, number),
        }
    }

    fn row(&self, event: u32, row: &mut [Grade<T::Value>]) {
        self.table.row(event, row);
        if let Some(pin) = self.pin_of(event) {
            close_others(pin, row);
        }
    }
}

impl<T: TraceTable> Pins<T> {
    // Lays pins over a table; no event is pinned yet.
    pub fn over(table: T) -> Pins<T>
        ensures table { result.table ≡ table }
        ensures pins { pins_in result.pins ≡ no_pins }
    {
        Pins {
            table,
            pins: Pinning::none(),
        }
    }

    // Pins an event to a number; refused where one of the two is outside 1 to S, the event is pinned, or another event
    // has the number.
    pub fn pin(&mut self, event: u32, number: u32) -> Result<(), Refusal>
        ensures answer { answered result ≡ pin_answer (T.TraceTable.means self.old.table).size (pins_in self.old.pins) event number }
        ensures after { pins_in self.new.pins ≡ after_pin (T.TraceTable.means self.old.table).size (pins_in self.old.pins) event number }
        ensures kept { self.new.table ≡ self.old.table }
    {
        self.pins.pin(self.table.size(), event, number)
    }

    // Removes the pin of an event; refused where the event is outside 1 to S or not pinned.
    pub fn unpin(&mut self, event: u32) -> Result<(), Refusal>
        ensures answer { answered result ≡ unpin_answer (T.TraceTable.means self.old.table).size (pins_in self.old.pins) event }
        ensures after { pins_in self.new.pins ≡ after_unpin (T.TraceTable.means self.old.table).size (pins_in self.old.pins) event }
        ensures kept { self.new.table ≡ self.old.table }
    {
        self.pins.unpin(self.table.size(), event)
    }

    // The number that an event is pinned to, if any; outside 1 to S there is none.
    pub fn pin_of(&self, event: u32) -> Option<u32>
        ensures { result ≡ pin_at (T.TraceTable.means self.now.table).size (pins_in self.now.pins) event }
    {
        self.pins.of(self.table.size(), event)
    }
}

// Closes each place of a row but the one of the number.
fn close_others<C: Copy>(number: u32, row: &mut [Grade<C>])
    ensures { PinnedRow number (length row.old) row.old row.new }
{
    for (c, grade) in row.iter_mut().enumerate() {
        if c + 1 != number as usize {
            *grade = Grade::Closed;
        }
    }
}
