// The lists of a job.
ghost use Rattle.std.specs.Prelude.{◌≡◌, ◌*◌, ◌≤◌, length};
ghost use Rattle.tables.specs.Limits.{max_places};
ghost use Rattle.job.specs.Limits.{max_pin_numbers, max_log};

use super::{Job, Pin};

impl Job {
    // The pins, in the order of the text.
    pub fn pins(&self) -> &[Pin]
        ensures value { result.now ≡ self.now.pins.items }
        ensures few { 2 * length result.now ≤ max_pin_numbers }
    {
        self.pins.as_slice()
    }

    pub fn trace(&self) -> &[u32]
        ensures value { result.now ≡ self.now.trace.items }
        ensures short { length result.now ≤ max_places }
    {
        self.trace.as_slice()
    }

    // How many events the log has, which stand at the front of the list that was lent for it.
    pub fn events(&self) -> usize
        ensures value { result ≡ self.now.events }
        ensures bound { result ≤ max_log }
    {
        self.events
    }
}
