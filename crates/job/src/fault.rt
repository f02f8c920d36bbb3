// What is wrong with a text, and where.
ghost use Rattle.std.specs.Prelude.{◌≡◌, Some};
ghost use Rattle.job.specs.Faults.{finding, cause_number, finding_of, layer_word};

use std::fmt;
use tables::refusal::Refusal;

// The part of the program that a fault belongs to.
#[derive(Clone, Copy, PartialEq, Eq, Debug)]
pub enum Layer {
    Text,
    Job,
    Watch,
}

#[derive(Clone, Copy, PartialEq, Eq, Debug)]
pub enum Cause {
    // 1: a byte is of no allowed kind, or spoils its run
    Byte,
    // 2: a number has a needless leading 0 or is above its limit
    Numeral,
    // 3: a run is not the expected one, or the text ends too soon or goes on
    Unexpected,
    // 4: a count other than the trace's is not allowed, or the text is too long
    Limit,
    // 5 to 12: what a call would refuse
    Refused(Refusal),
}

#[derive(Clone, Copy, PartialEq, Eq, Debug)]
pub struct Fault {
    pub cause: Cause,
    // a byte of the text, counted from 0
    pub place: usize,
}

impl fmt::Display for Layer {
    ghost output = { λ layer. Some (layer_word layer) };

    fn fmt<W: fmt::Write>(&self, f: &mut fmt::Formatter<W>) -> fmt::Result {
        match self {
            Layer::Text => write!(f, "text"),
            Layer::Job => write!(f, "job"),
            Layer::Watch => write!(f, "watch"),
        }
    }
}

impl Cause {
    // The fault at a place.
    pub(crate) fn at(self, place: usize) -> Fault
        ensures { finding_of result ≡ finding (cause_number self) place }
    {
        Fault { cause: self, place }
    }
}

impl Fault {
    // A cause that carries a refusal has no discriminant to cast, so the numbers stand in a match.
    pub fn number(&self) -> u8
        ensures { result ≡ (finding_of self.now).number }
    {
        match self.cause {
            Cause::Byte => 1,
            Cause::Numeral => 2,
            Cause::Unexpected => 3,
            Cause::Limit => 4,
            Cause::Refused(refusal) => refusal.number(),
        }
    }

    pub fn layer(&self) -> Layer
        ensures { result ≡ (finding_of self.now).layer }
    {
        match self.cause {
            Cause::Byte | Cause::Numeral => Layer::Text,
            Cause::Unexpected | Cause::Limit => Layer::Job,
            Cause::Refused(_) => Layer::Watch,
        }
    }
}
