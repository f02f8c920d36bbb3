// Pairs of any two cost kinds, in dictionary order.
ghost use Rattle.costs.specs.Pair.{pair_kind};
ghost use Rattle.costs.specs.PairLaws.{pair_laws};

use crate::{Cost, formed};

#[derive(Clone, Copy, PartialEq, Eq, Debug)]
pub struct Pair<A, B> {
    pub first: A,
    pub second: B,
}

impl<A: Cost, B: Cost> Cost for Pair<A, B> {
    ghost kind = { pair_kind A.Cost.kind B.Cost.kind };

    ghost laws = { pair_laws A.Cost.kind B.Cost.kind A.Cost.laws B.Cost.laws };

    fn zero() -> Pair<A, B> {
        Pair {
            first: A::zero(),
            second: B::zero(),
        }
    }

    // `plus` and `minus` share the test alone; one text over closures for both parts would be longer than the two.
    fn plus(self, other: Pair<A, B>) -> Pair<A, B> {
        if !formed(self.span(), other.span()) {
            return Self::zero();
        }
        Pair {
            first: self.first.plus(other.first),
            second: self.second.plus(other.second),
        }
    }

    fn minus(self, other: Pair<A, B>) -> Pair<A, B> {
        if !formed(self.span(), other.span()) {
            return Self::zero();
        }
        Pair {
            first: self.first.minus(other.first),
            second: self.second.minus(other.second),
        }
    }

    fn at_most(&self, other: &Pair<A, B>) -> bool {
        let under = self.first.at_most(&other.first);
        let over = other.first.at_most(&self.first);
        let rest = self.second.at_most(&other.second);
        under & (!over | rest)
    }

    fn span(&self) -> u64 {
        self.first.span().max(self.second.span())
    }
}
