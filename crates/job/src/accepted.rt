// A job as it is accepted.
ghost use Rattle.std.specs.Prelude.{◌≤◌};
ghost use Rattle.job.specs.Limits.{max_log};

use crate::MAX_PINS;
use arrayvec::ArrayVec;
use tables::MAX_PLACES;

pub mod lists;

// What a place costs, with its delta, and the bound.
#[derive(Clone, Copy)]
pub enum Kind {
    Mismatch { bound: u32 },
    Difference { delta: u32, bound: u32 },
    Mixed { delta: u32, first: u32, second: u32 },
}

#[derive(Clone, Copy, Default)]
pub struct Pin {
    pub event: u32,
    pub number: u32,
}

#[derive(Drop)]
pub struct Job {
    pub kind: Kind,
    pub size: u32,
    pub(crate) pins: ArrayVec<Pin, MAX_PINS>,
    pub(crate) trace: ArrayVec<u32, MAX_PLACES>,
    // how many events the log has, which stand at the front of the list that was lent for it
    pub(crate) events: usize,
    ghost logged: { events ≤ max_log },
}
