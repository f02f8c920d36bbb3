// What one place costs: the trace's number at the place against the house number that the event there is given.
ghost use Rattle.std.specs.Prelude.{◌≡◌, ℕ, ◌≤◌, Bool, true, nat_le};
ghost use Rattle.tables.specs.Limits.{max_size, max_delta};
ghost use Rattle.tables.specs.Table.{Spans};
ghost use Rattle.tables.specs.Pricing.{mismatch, difference, mixed};
ghost use Rattle.tables.specs.declared.grade.Grade.{Grade as Graded};
ghost use Rattle.std.proofs.Common.{rules};

use crate::MAX_DELTA;
use crate::grade::Grade;
use costs::Cost;
use costs::pair::Pair;
use costs::plain::Plain;

pub trait Pricing {
    type Value: Cost;

    // the grade of a place with a trace number, at a house number
    ghost prices: { Self → ℕ → ℕ → Graded Self.Value };

    // whether a table may be made with it
    ghost usable: { Self → Bool };

    fn price(&self, trace: u32, number: u32) -> Grade<Self::Value>
        ensures { result ≡ prices self.now trace number };

    fn is_usable(&self) -> bool
        ensures { result ≡ usable self.now };

    ghost small: { (s : Self) (p c : ℕ) → p ≤ max_size → c ≤ max_size → Spans Self.Value.Cost.kind max_size (prices s p c) };
}

// 0 where the numbers agree, otherwise 1; closes nothing.
#[derive(Clone, Copy)]
pub struct Mismatch;

impl Pricing for Mismatch {
    type Value = Plain;

    ghost prices = { λ _ p c. mismatch p c };

    ghost usable = { λ _. true };

    ghost small = { Prim.search rules };

    fn price(&self, trace: u32, number: u32) -> Grade<Plain> {
        if trace == number {
            Grade::Open(Plain::from(0))
        } else {
            Grade::Open(Plain::from(1))
        }
    }

    fn is_usable(&self) -> bool {
        true
    }
}

// How far the numbers lie apart; closes the pair where that is above delta.
#[derive(Clone, Copy)]
pub struct Difference {
    pub delta: u32,
}

impl Pricing for Difference {
    type Value = Plain;

    ghost prices = { λ s p c. difference s.delta p c };

    ghost usable = { λ s. nat_le s.delta max_delta };

    ghost small = { Prim.search rules };

    fn price(&self, trace: u32, number: u32) -> Grade<Plain> {
        let gap = trace.abs_diff(number);
        if gap > self.delta {
            Grade::Closed
        } else {
            Grade::Open(Plain::from(gap))
        }
    }

    fn is_usable(&self) -> bool {
        self.delta <= MAX_DELTA
    }
}

// The two together: whether the numbers differ, and how far they lie apart; closes as Difference does.
#[derive(Clone, Copy)]
pub struct Mixed {
    pub delta: u32,
}

impl Pricing for Mixed {
    type Value = Pair<Plain, Plain>;

    ghost prices = { λ s p c. mixed s.delta p c };

    ghost usable = { λ s. nat_le s.delta max_delta };

    ghost small = { Prim.search rules };

    fn price(&self, trace: u32, number: u32) -> Grade<Pair<Plain, Plain>> {
        let Grade::Open(second) = self.apart().price(trace, number) else {
            return Grade::Closed;
        };
        let Grade::Open(first) = Mismatch.price(trace, number) else {
            return Grade::Closed;
        };
        Grade::Open(Pair { first, second })
    }

    fn is_usable(&self) -> bool {
        self.apart().is_usable()
    }
}

impl Mixed {
    // How far the numbers lie apart, alone.
    fn apart(&self) -> Difference
        ensures { result.delta ≡ self.now.delta }
    {
        Difference { delta: self.delta }
    }
}
