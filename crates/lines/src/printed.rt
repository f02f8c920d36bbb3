// Costs as fields of a line.
ghost use Rattle.std.specs.Prelude.{List, [], ◌∷◌, ◌++◌, map, ℤ};
ghost use Rattle.std.specs.Fmt.{signed_decimal};
ghost use Rattle.lines.specs.Lines.{spaced, Adds};

use crate::fields::{push_signed, push_space};
use costs::pair::Pair;
use costs::plain::Plain;
use std::alloc::AllocError;

// The numbers that a line says of a cost of any kind. This is no `Display`: a pair is two fields of a line, and the clauses name its numbers.
pub trait Printed {
    // the numbers that a cost is written as
    ghost parts: { Self → List ℤ };

    // Each of these numbers, after a space.
    fn push_parts(&self, out: &mut String) -> Result<(), AllocError>
        ensures { Adds result out.old out.new (spaced (map signed_decimal (parts self.now))) };
}

impl Printed for Plain {
    ghost parts = { λ cost. cost.value ∷ [] };

    fn push_parts(&self, out: &mut String) -> Result<(), AllocError> {
        push_space(out)?;
        push_signed(out, self.value())
    }
}

// The numbers of the first part, and then those of the second.
impl<A: Printed, B: Printed> Printed for Pair<A, B> {
    ghost parts = { λ cost. A.Printed.parts cost.first ++ B.Printed.parts cost.second };

    fn push_parts(&self, out: &mut String) -> Result<(), AllocError> {
        self.first.push_parts(out)?;
        self.second.push_parts(out)
    }
}
