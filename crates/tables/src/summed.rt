// A table that sums what the places of its window cost.
ghost use Rattle.std.specs.Prelude.{◌≡◌, length, All};
ghost use Rattle.tables.specs.Limits.{max_size};
ghost use Rattle.tables.specs.Ring.{ring_events};
ghost use Rattle.tables.specs.Table.{Within};

use crate::MAX_PLACES;
use crate::ring::Ring;
use arrayvec::ArrayVec;

pub mod table;

#[derive(Drop)]
pub struct Summed<P> {
    pricing: P,
    size: u32,
    // as many numbers as the window has places
    trace: ArrayVec<u32, MAX_PLACES>,
    window: Ring,
    ghost sized: { Within max_size size },
    ghost whole: { length trace.items ≡ window.places },
    ghost traced: { All (Within size) trace.items },
    ghost events: { All (Within size) (ring_events window) },
}
