// Lists as they are printed: each value after a space.
ghost use Rattle.std.specs.Prelude.{◌≡◌, take, Some as Has};
ghost use Rattle.std.specs.Fmt.{decimal};
ghost use Rattle.shown.specs.Text.{text_of, spaced, marked_text};

use crate::parts::{Parts, Shown};
use std::fmt;

// The first values of a list, as many as the size says, or all where it has fewer.
pub fn first<X>(list: &[X], size: usize) -> &[X]
    ensures { result.now ≡ take size list.now }
{
    if size < list.len() {
        &list[..size]
    } else {
        list
    }
}

// Numbers, as those of a renumbering.
#[derive(Clone, Copy)]
pub struct Numbers<'a>(pub &'a [u32]);

impl<'a> fmt::Display for Numbers<'a> {
    ghost output = { λ numbers. Has (spaced decimal numbers.0.now) };

    fn fmt<W: fmt::Write>(&self, f: &mut fmt::Formatter<W>) -> fmt::Result {
        for number in self.0.iter() {
            write!(f, " {number}")?;
        }
        Ok(())
    }
}

// Prices. A type of its own beside Numbers, since a cost is printed by Shown and a number by itself.
#[derive(Clone, Copy)]
pub struct Prices<'a, C>(pub &'a [C]);

impl<'a, C: Parts + Copy> fmt::Display for Prices<'a, C> {
    ghost output = { λ prices. Has (spaced (λ c. text_of (C.Parts.parts c)) prices.0.now) };

    fn fmt<W: fmt::Write>(&self, f: &mut fmt::Formatter<W>) -> fmt::Result {
        for price in self.0.iter() {
            write!(f, " {}", Shown(*price))?;
        }
        Ok(())
    }
}

// The events that are marked with 1: place i of the marks is that of event i + 1.
#[derive(Clone, Copy)]
pub struct Marked<'a>(pub &'a [u32]);

impl<'a> fmt::Display for Marked<'a> {
    ghost output = { λ marks. Has (marked_text 1 marks.0.now) };

    fn fmt<W: fmt::Write>(&self, f: &mut fmt::Formatter<W>) -> fmt::Result {
        for (place, mark) in self.0.iter().enumerate() {
            if *mark == 1 {
                write!(f, " {}", place + 1)?;
            }
        }
        Ok(())
    }
}
