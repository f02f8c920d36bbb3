// Answers and verdicts as they are printed, a verdict with what the five lists of the judge then hold.
ghost use Rattle.std.specs.Prelude.{Some as Has};
ghost use Rattle.shown.specs.Text.{text_of, told_text, found_text, judged_text};

use crate::lists::{Marked, Numbers, Prices, first};
use crate::parts::{Parts, Shown};
use crate::sums::total;
use costs::Cost;
use judge::sheet::Sheet;
use judge::verdict::Verdict;
use std::fmt;
use tables::refusal::Refusal;

// What a call that changes something answers.
#[derive(Clone, Copy)]
pub struct Told(pub Result<(), Refusal>);

impl fmt::Display for Told {
    ghost output = { λ t. Has (told_text t.0) };

    fn fmt<W: fmt::Write>(&self, f: &mut fmt::Formatter<W>) -> fmt::Result {
        match self.0 {
            Ok(()) => write!(f, " done"),
            Err(refusal) => write!(f, " refused with {}", refusal.number()),
        }
    }
}

// What a judge answered about a table of that size, with the lists that it left.
#[derive(Drop)]
pub struct Judged<C> {
    pub answer: Result<Verdict<C>, Refusal>,
    pub size: usize,
    pub sheet: Sheet<C>,
}

impl<C: Cost + Parts> fmt::Display for Judged<C> {
    ghost output = { λ j. Has (judged_text C.Cost.kind (λ c. text_of (C.Parts.parts c)) j.answer j.size j.sheet) };

    fn fmt<W: fmt::Write>(&self, f: &mut fmt::Formatter<W>) -> fmt::Result {
        let size = self.size;
        let sheet = &self.sheet;
        match self.answer {
            Ok(Verdict::Within(cost)) => {
                write!(f, " within {}{}", Shown(cost), Found { size, sheet })
            }
            Ok(Verdict::Over(cost)) => write!(f, " over {}{}", Shown(cost), Found { size, sheet }),
            Ok(Verdict::None) => {
                let marks = Marked(first(&sheet.marks, size));
                write!(f, " none\n  marked events{marks}")
            }
            Err(refusal) => write!(f, "{}", Told(Err(refusal))),
        }
    }
}

// What the lists hold after a verdict with a cost: the renumbering, both price lists, and what the prices add up to.
#[derive(Clone, Copy)]
struct Found<'a, C> {
    size: usize,
    sheet: &'a Sheet<C>,
}

impl<'a, C: Cost + Parts> fmt::Display for Found<'a, C> {
    ghost output = { λ found. Has (found_text C.Cost.kind (λ c. text_of (C.Parts.parts c)) found.size found.sheet.now) };

    fn fmt<W: fmt::Write>(&self, f: &mut fmt::Formatter<W>) -> fmt::Result {
        let size = self.size;
        let sheet = self.sheet;
        let events = total(&sheet.event_prices, size);
        let numbers = total(&sheet.number_prices, size);
        write!(
            f,
            "\n  numbers{}\n  event prices{}\n  number prices{}\n  all prices add up to {}",
            Numbers(first(&sheet.numbers, size)),
            Prices(first(&sheet.event_prices, size)),
            Prices(first(&sheet.number_prices, size)),
            Shown(events.plus(numbers))
        )
    }
}
