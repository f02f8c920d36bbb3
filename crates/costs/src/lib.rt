// Cost kinds: values with a zero, a sum, a difference, an order and a span.
//
// What a kind means is the ghost record `kind`; the rules that it keeps are the law `laws`. Generic code is
// proved against these two and against nothing else.
#![tactic(auto)]

ghost use Rattle.std.specs.Prelude.{◌≡◌, ◌+◌, nat_le};
ghost use Rattle.costs.specs.Kind.{Kind, Laws, limit};

pub mod pair;
pub mod plain;

// A sum or a difference is formed where the spans of its two values add to at most this.
pub const SPAN_LIMIT: u64 = 1_000_000_000_000;

pub trait Cost: Copy {
    // the operations of the kind
    ghost kind: { Kind Self };

    fn zero() -> Self
        ensures { result ≡ kind.zero };

    // The sum where it is formed, otherwise zero.
    fn plus(self, other: Self) -> Self
        ensures { result ≡ kind.plus self other };

    // The difference where it is formed, otherwise zero.
    fn minus(self, other: Self) -> Self
        ensures { result ≡ kind.minus self other };

    // An operation of the kind, and not Ord, which would ask for an equality and a total order of its own besides.
    fn at_most(&self, other: &Self) -> bool
        ensures { result ≡ kind.at_most self.now other.now };

    fn span(&self) -> u64
        ensures { result ≡ kind.span self.now };

    // the rules that they keep
    ghost laws: { Laws kind };
}

// Whether a sum or a difference of values with these spans is formed.
pub fn formed(a: u64, b: u64) -> bool
    ensures { result ≡ nat_le (a + b) limit }
{
    a.saturating_add(b) <= SPAN_LIMIT
}
