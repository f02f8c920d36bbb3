// Places of events and numbers, which count from 0, and bit rows: sets of places, one bit each.
ghost use Rattle.std.specs.Prelude.{◌≡◌, ℕ, ◌^◌, ◌<◌, MatchOption, ◌≢◌, count_ones};
ghost use Rattle.std.specs.Bool.{MatchBool};
ghost use Rattle.tables.specs.Limits.{max_size};
ghost use Rattle.judge.specs.BitRows.{Has, Shut};

use std::marker::Model;

// A set of events or numbers.
pub(crate) type Row = u32;

// An event or a number that a row has room for.
#[derive(Clone, Copy)]
pub(crate) struct Place {
    at: u8,
}

impl Model for Place {
    ghost Value = { ℕ };

    ghost view = { λ p. p.at };

    ghost invariant = { λ p. p.at < max_size };

    ghost inverse = { λ n. record { at = n } };
}

impl Place {
    pub(crate) fn new(at: u32) -> Place
        requires { at < max_size }
        ensures { result ≡ at }
    {
        Place { at: at as u8 }
    }

    pub(crate) fn index(self) -> usize
        ensures index { result ≡ self }
        ensures below { self < max_size }
    {
        self.at as usize
    }

    // The row with this place alone.
    pub(crate) fn bit(self) -> Row
        ensures { result ≡ 2 ^ self }
    {
        1 << self.at
    }

    pub(crate) fn is_in(self, row: Row) -> bool
        ensures { MatchBool result (Has row self) (Has row self → ⊥) }
    {
        (row >> self.at) & 1 != 0
    }
}

// A place that both rows have.
pub(crate) fn common_place(row: Row, untried: Row) -> Option<Place>
    ensures { MatchOption result (Shut row untried) (λ c. Has row c × Has untried c) }
{
    let both = row & untried;
    if both == 0 {
        None
    } else {
        Some(Place {
            at: both.trailing_zeros() as u8,
        })
    }
}

// The row without one of its places.
pub(crate) fn without(row: Row, place: Place) -> Row
    requires { Has row place }
    ensures fewer { count_ones result < count_ones row }
    ensures inner { (c : ℕ) → Has result c → Has row c × (c ≢ place) }
    ensures others { (c : ℕ) → Has row c → (c ≢ place) → Has result c }
{
    row & !place.bit()
}
