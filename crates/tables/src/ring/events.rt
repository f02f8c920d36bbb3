// What a ring does.
ghost use Rattle.std.specs.Prelude.{◌≡◌, ◌<◌, ◌≤◌, [], ◌∷◌, ◌++◌, length, slice_index};
ghost use Rattle.tables.specs.Limits.{max_places};
ghost use Rattle.tables.specs.Ring.{slot, ring_events};
ghost use Rattle.tables.specs.Table.{last};

use super::Ring;
use crate::MAX_PLACES;

impl Ring {
    // An empty ring of that many places, at least one and at most the limit.
    pub(crate) fn new(places: usize) -> Ring
        ensures places { 1 ≤ places → places ≤ max_places → result.places ≡ places }
        ensures events { ring_events result ≡ [] }
    {
        Ring {
            slots: [0; MAX_PLACES],
            places: places.clamp(1, MAX_PLACES),
            start: 0,
            count: 0,
        }
    }

    pub(crate) fn places(&self) -> usize
        ensures { result ≡ self.now.places }
    {
        self.places
    }

    #[tactic(auto, using(crate::specs::Rings::events_length))]
    pub(crate) fn len(&self) -> usize
        ensures value { result ≡ length (ring_events self.now) }
        ensures few { result ≤ self.now.places }
    {
        let held = self.count;
        held
    }

    // The event at place j, counted from 0, the oldest first.
    #[tactic(auto, using(crate::specs::Rings::events_length, crate::specs::Rings::events_at))]
    pub(crate) fn event(&self, j: usize) -> u32
        requires { j < length (ring_events self.now) }
        ensures { result ≡ slice_index (ring_events self.now) j }
    {
        self.slots[self.slot_of(j)]
    }

    // One event more; where the ring is full, the oldest one gives way.
    #[tactic(auto, using(crate::specs::Rings::pushed, crate::specs::Rings::pushed_out))]
    pub(crate) fn push(&mut self, event: u32)
        ensures places { self.new.places ≡ self.old.places }
        ensures events { ring_events self.new ≡ last self.old.places (ring_events self.old ++ (event ∷ [])) }
    {
        let place = self.slot_of(self.count);
        self.slots[place] = event;
        if self.count < self.places {
            self.count += 1;
        } else {
            self.start = self.slot_of(1);
        }
    }

    // Where event j stands.
    fn slot_of(&self, j: usize) -> usize
        requires { j ≤ self.now.places }
        ensures value { result ≡ slot self.now.places self.now.start j }
        ensures below { result < self.now.places }
    {
        let at = self.start + j;
        if at < self.places {
            at
        } else {
            at - self.places
        }
    }
}
