// The plain costs of a cost, and how a cost is printed.
ghost use Rattle.std.specs.Prelude.{◌≡◌, Some as Has, None as Lacks, Option as Maybe};
ghost use Rattle.costs.specs.declared.plain.Plain.{Plain};
ghost use Rattle.shown.specs.Text.{text_of};

use costs::pair::Pair;
use costs::plain::Plain;
use std::fmt;

// The plain costs of a cost: one, or two. They are printed in parentheses, where `Printed` of `lines` writes the numbers of a
// cost as fields of a line.
pub trait Parts {
    ghost parts: { Self → Plain × Maybe Plain };

    fn parts(&self) -> (Plain, Option<Plain>)
        ensures { result ≡ parts self.now };
}

impl Parts for Plain {
    ghost parts = { λ p. (p, Lacks) };

    fn parts(&self) -> (Plain, Option<Plain>) {
        (*self, None)
    }
}

impl Parts for Pair<Plain, Plain> {
    ghost parts = { λ p. (p.first, Has p.second) };

    fn parts(&self) -> (Plain, Option<Plain>) {
        (self.first, Some(self.second))
    }
}

// A cost as it is printed: its plain cost, or both in parentheses.
#[derive(Clone, Copy)]
pub struct Shown<C>(pub C);

impl<C: Parts> fmt::Display for Shown<C> {
    ghost output = { λ s. Has (text_of (C.Parts.parts s.0)) };

    fn fmt<W: fmt::Write>(&self, f: &mut fmt::Formatter<W>) -> fmt::Result {
        match self.0.parts() {
            (only, None) => write!(f, "{only}"),
            (first, Some(second)) => write!(f, "({first}, {second})"),
        }
    }
}
