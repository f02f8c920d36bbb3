// A ring buffer of events: it holds the last `places` events that were pushed, and shifts none. Slots, start and count
// are its own, since a VecDeque or a ring of the library would allocate.
ghost use Rattle.std.specs.Prelude.{◌≡◌, ◌<◌, ◌≤◌, length};
ghost use Rattle.tables.specs.Limits.{max_places};

use crate::MAX_PLACES;

pub mod events;

#[derive(Drop)]
pub struct Ring {
    slots: [u32; MAX_PLACES],
    places: usize,
    // where the oldest event stands
    start: usize,
    count: usize,
    ghost whole: { length slots ≡ max_places },
    ghost placed: { (1 ≤ places) × (places ≤ max_places) },
    ghost begun: { start < places },
    ghost counted: { count ≤ places },
}
