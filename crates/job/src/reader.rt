// A reader: what it expects next, and what the job says so far.
ghost use Rattle.std.specs.Prelude.{◌≡◌, ◌+◌, ◌*◌, ◌≤◌, length};
ghost use Rattle.tables.specs.Limits.{max_size, max_places};
ghost use Rattle.tables.specs.Pins.{pins_in};
ghost use Rattle.job.specs.Content.{laid};
ghost use Rattle.job.specs.Limits.{max_pin_numbers, max_log};
ghost use Rattle.job.specs.Room.{pins_left, trace_left, log_left};

use crate::accepted::Job;
use crate::expected::Expected;
use tables::pinning::Pinning;

pub mod steps;

#[derive(Drop)]
pub struct Reader {
    expected: Expected,
    job: Job,
    pinned: Pinning,
    ghost sized: { job.size ≤ max_size },
    ghost pin_room: { 2 * length job.pins.items + pins_left expected ≤ max_pin_numbers },
    ghost trace_room: { length job.trace.items + trace_left expected ≤ max_places },
    ghost log_room: { job.events + log_left expected ≤ max_log },
    ghost stands: { pins_in pinned ≡ laid job.size job.pins.items },
}
