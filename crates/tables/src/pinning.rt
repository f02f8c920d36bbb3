// Which number each event is pinned to, if any.
ghost use Rattle.std.specs.Prelude.{◌≡◌, min};
ghost use Rattle.tables.specs.Limits.{max_size};
ghost use Rattle.tables.specs.Refusals.{answered};
ghost use Rattle.tables.specs.Pins.{pins_in, no_pins, pin_answer, after_pin, unpin_answer, after_unpin, pin_at};

use crate::refusal::Refusal;
use crate::{MAX_SIZE, is_within};
use std::marker::Model;

// A place for each event, counted from 0; place 0 is never used.
const PIN_PLACES: usize = MAX_SIZE as usize + 1;

#[derive(Drop)]
pub struct Pinning {
    // the number that event r is pinned to stands at place r; an array, since a table allocates nothing
    pins: [Option<u32>; PIN_PLACES],
}

// Clauses see the list of the pins; `pins_in` reads it by event.
impl Model for Pinning {
    ghost use Rattle.std.specs.Prelude.{ℕ, List, Option};

    ghost Value = { List (Option ℕ) };

    ghost view = { λ p. p.pins };
}

// A size above the limit counts as the limit. It is an argument, since it is the table's or the text's: kept here too, it
// would want a fact everywhere that the two are the same.
impl Pinning {
    // No event is pinned.
    pub fn none() -> Pinning
        ensures { pins_in result ≡ no_pins }
    {
        Pinning {
            pins: [None; PIN_PLACES],
        }
    }

    // Pins an event to a number; refused where one of the two is outside 1 to the size, the event is pinned, or another
    // event has the number.
    pub fn pin(&mut self, size: u32, event: u32, number: u32) -> Result<(), Refusal>
        ensures answer { answered result ≡ pin_answer (min size max_size) (pins_in self.old) event number }
        ensures after { pins_in self.new ≡ after_pin (min size max_size) (pins_in self.old) event number }
    {
        let top = size.min(MAX_SIZE);
        if !is_within(top, event) || !is_within(top, number) {
            return Err(Refusal::Outside);
        }
        if self.pins[event as usize].is_some() {
            return Err(Refusal::EventPinned);
        }
        if self.pins[1..=top as usize].contains(&Some(number)) {
            return Err(Refusal::NumberTaken);
        }
        self.pins[event as usize] = Some(number);
        Ok(())
    }

    // Removes the pin of an event; refused where the event is outside 1 to the size or not pinned.
    pub fn unpin(&mut self, size: u32, event: u32) -> Result<(), Refusal>
        ensures answer { answered result ≡ unpin_answer (min size max_size) (pins_in self.old) event }
        ensures after { pins_in self.new ≡ after_unpin (min size max_size) (pins_in self.old) event }
    {
        if !is_within(size.min(MAX_SIZE), event) {
            return Err(Refusal::Outside);
        }
        if self.pins[event as usize].is_none() {
            return Err(Refusal::NotPinned);
        }
        self.pins[event as usize] = None;
        Ok(())
    }

    // The number that an event is pinned to, if any; outside 1 to the size there is none.
    pub fn of(&self, size: u32, event: u32) -> Option<u32>
        ensures { result ≡ pin_at (min size max_size) (pins_in self.now) event }
    {
        if !is_within(size.min(MAX_SIZE), event) {
            return None;
        }
        self.pins[event as usize]
    }
}
