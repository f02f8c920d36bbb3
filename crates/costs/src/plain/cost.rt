// Plain costs as a cost kind, and how they are made, read and written.
ghost use Rattle.std.specs.Prelude.{◌≡◌, Some};
ghost use Rattle.std.specs.Fmt.{signed_decimal};
ghost use Rattle.costs.specs.Plain.{opposite as opposed, plain_kind, plain_of, plain_from};
ghost use Rattle.costs.specs.PlainLaws.{plain_laws};

use super::Plain;
use crate::{Cost, SPAN_LIMIT};
use std::fmt;

impl Plain {
    // The cost `value`, or None where its absolute value is above the limit; an Option, as of NonZeroU32::new, since
    // there is no more to say of a refusal.
    pub fn new(value: i64) -> Option<Plain>
        ensures { result ≡ plain_from value }
    {
        if value.unsigned_abs() <= SPAN_LIMIT {
            Some(Plain { value })
        } else {
            None
        }
    }

    pub fn value(&self) -> i64
        ensures { result ≡ self.now.value }
    {
        let Plain { value } = *self;
        value
    }

    fn opposite(self) -> Plain
        ensures { result ≡ opposed self }
    {
        Plain { value: -self.value }
    }
}

// A count as a cost.
impl From<u32> for Plain {
    ghost from_gives = { λ n cost. cost ≡ plain_of n };

    fn from(count: u32) -> Plain {
        Plain {
            value: i64::from(count),
        }
    }
}

impl Cost for Plain {
    ghost kind = { plain_kind };

    ghost laws = { plain_laws };

    fn zero() -> Plain {
        Plain::from(0)
    }

    fn plus(self, other: Plain) -> Plain {
        // both spans are at most the limit, so their total fits. `formed` would say this test, but is compiled without a
        // branch, so that each sum of a walk waits for the one before (timed)
        if self.value.unsigned_abs() + other.value.unsigned_abs() > SPAN_LIMIT {
            return Self::zero();
        }
        Plain {
            value: self.value + other.value,
        }
    }

    fn minus(self, other: Plain) -> Plain {
        self.plus(other.opposite())
    }

    fn at_most(&self, other: &Plain) -> bool {
        self.value <= other.value
    }

    fn span(&self) -> u64 {
        self.value.unsigned_abs()
    }
}

impl fmt::Display for Plain {
    ghost output = { λ p. Some (signed_decimal p.value) };

    fn fmt<W: fmt::Write>(&self, f: &mut fmt::Formatter<W>) -> fmt::Result {
        let value = self.value;
        write!(f, "{value}")
    }
}
