// Whether each event can have an open number of its own, over one bit row of open numbers for each event.
// Events and numbers go by their places here, which count from 0: bit c of row r says that number c + 1 is open to event r + 1.
ghost use Rattle.std.specs.Prelude.{◌≡◌, ℕ, ◌^◌, ◌<◌, ◌≤◌, None, MatchOption, replicate, slice_index};
ghost use Rattle.std.specs.Bool.{MatchBool};
ghost use Rattle.tables.specs.Limits.{max_size};
ghost use Rattle.judge.specs.BitRows.{Has, Narrowed, open_in, stands_in};
ghost use Rattle.judge.specs.Marks.{events_in, Short};
ghost use Rattle.judge.specs.Matching.{Seated, Placed, Renumbered};

use crate::WIDTH;
use crate::place::{Place, Row, common_place, without};

// The holder of each number, which is open to it, and the numbers that the search for one more event has yet to try.
// Its lists are arrays, since judging allocates nothing. The rows are a copy: with a reference to them the borrow checker
// has no rule for these methods (tried).
#[derive(Drop)]
struct Matching {
    rows: [Row; WIDTH],
    holders: [Option<Place>; WIDTH],
    untried: Row,
    ghost placed: { Placed rows holders },
}

impl Matching {
    ghost use Rattle.judge.specs.Moves.{Joined, Refused, Freed, Kept, Marks};

    // Nobody holds a number yet.
    fn new(rows: &[Row; WIDTH]) -> Matching
        ensures rows { result.rows ≡ rows.now }
        ensures holders { result.holders ≡ replicate max_size None }
    {
        Matching {
            rows: *rows,
            holders: [None; WIDTH],
            untried: 0,
        }
    }

    // May this event have a number? Then it gets one.
    #[cycle(move_holder_seat_event)]
    fn seat_event(&mut self, event: Place) -> bool
        requires { Seated self.old.holders event → ⊥ }
        ensures untried { Narrowed self.old.untried self.new.untried }
        ensures outcome { MatchBool result (Joined self.old self.new event) (Refused self.old self.new event) }
    {
        while let Some(number) = common_place(self.rows[event.index()], self.untried) {
            self.untried = without(self.untried, number);
            if self.move_holder(number) {
                self.holders[number.index()] = Some(event);
                return true;
            }
        }
        false
    }

    // May this number's holder have another number? Then it moves there, and this one is free.
    #[cycle(move_holder_seat_event)]
    fn move_holder(&mut self, number: Place) -> bool
        requires { Has self.old.untried number → ⊥ }
        ensures untried { Narrowed self.old.untried self.new.untried }
        ensures outcome { MatchBool result (Freed self.old self.new number) (Kept self.old self.new number) }
    {
        let Some(holder) = self.holders[number.index()] else {
            return true;
        };
        self.holders[number.index()] = None;
        if self.seat_event(holder) {
            return true;
        }
        self.holders[number.index()] = Some(holder);
        false
    }

    // One event more gets a number, if it may have one. Nobody has to move where the number of its own place is open to it and free.
    fn seat_one_more(&mut self, event: Place) -> bool
        requires standing { Seated self.old.holders event → ⊥ }
        requires untried { Has self.old.untried event }
        ensures { MatchBool result (Joined self.old self.new event) (Refused self.old self.new event) }
    {
        if event.is_in(self.rows[event.index()]) && self.holders[event.index()].is_none() {
            self.holders[event.index()] = Some(event);
            return true;
        }
        self.seat_event(event)
    }

    // The event and the holders of the tried numbers. Out of line, since it runs at most once.
    #[inline(never)]
    fn marked_events(&self, event: Place) -> Row
        ensures { Marks self.now event max_size result }
    {
        let mut marked = event.bit();
        for (number, holder) in self.holders.iter().enumerate() {
            if let Some(holder) = holder {
                if !Place::new(number as u32).is_in(self.untried) {
                    marked |= holder.bit();
                }
            }
        }
        marked
    }
}

// The events that have too few open numbers among them, as a bit row (bit r - 1 for event r), or None where each event can have a number of its own.
// The size is a plain number here, below the limit by the table's law, since nothing else of the table is wanted.
pub(crate) fn blocked_events(rows: &[Row; WIDTH], size: u32) -> Option<Row>
    requires size { size ≤ max_size }
    requires rows { (r : ℕ) → r < size → slice_index rows.now r < 2 ^ size }
    ensures { MatchOption result (Renumbered (open_in rows.now) size) (λ set. Short (open_in rows.now) size (events_in size (stands_in set))) }
{
    let mut matching = Matching::new(rows);
    // Events are counted here, and no list is indexed by them.
    for event in 0..size {
        let event = Place::new(event);
        matching.untried = Row::MAX;
        if !matching.seat_one_more(event) {
            return Some(matching.marked_events(event));
        }
    }
    None
}
