// Why something was not done: it was refused, or there was no memory.
ghost use Rattle.std.specs.Prelude.{◌≡◌};
ghost use Rattle.watch.specs.declared.failure.Failure.TheVariants.{Refused, Memory};

use crate::walk::NextRefusal;
use std::alloc::{AllocError, AllocFailed};
use tables::refusal::Refusal;

#[derive(Clone, Copy, PartialEq, Eq, Debug)]
pub enum Failure<R> {
    Refused(R),
    Memory,
}

impl<R> From<AllocError> for Failure<R> {
    ghost from_gives = { λ _ r. r ≡ Memory };

    fn from(_error: AllocError) -> Failure<R> {
        Failure::Memory
    }
}

impl<R, X: Drop> From<AllocFailed<X>> for Failure<R> {
    ghost from_gives = { λ _ r. r ≡ Memory };

    fn from(refused: AllocFailed<X>) -> Failure<R> {
        drop(refused);
        Failure::Memory
    }
}

// One impl for every R would overlap with the one for an AllocError, so each refusal has its own.
impl From<Refusal> for Failure<Refusal> {
    ghost from_gives = { λ e r. r ≡ Refused e };

    fn from(refusal: Refusal) -> Failure<Refusal> {
        Failure::Refused(refusal)
    }
}

impl From<NextRefusal> for Failure<NextRefusal> {
    ghost from_gives = { λ e r. r ≡ Refused e };

    fn from(refusal: NextRefusal) -> Failure<NextRefusal> {
        Failure::Refused(refusal)
    }
}
