// The lines of an answer, as bytes.
//
// A line is fields parted by single spaces and ended by a line feed, with numbers in base ten. Each function says what
// bytes it adds to a text. Where memory runs out it returns an error, and part of a line may stand there.
#![tactic(auto)]

ghost use Rattle.std.specs.Prelude.{◌≡◌, [], ◌∷◌, ◌++◌, map, IfSome, IfOk, string_bytes, codes, decimal};
ghost use Rattle.std.specs.Fmt.{signed_decimal};
ghost use Rattle.lines.specs.Lines.{line, Adds};

use fields::{end_line, push_number, push_space, push_spaced_number, push_word};
use printed::Printed;
use std::alloc::{AllocError, Global};
use std::fmt::Display;

pub mod fields;
pub mod printed;

// The line of a fault: the layer that it lies in, its number there, and its place.
pub fn fault_line<L: Display + Drop>(
    heap: Global,
    layer: L,
    number: u32,
    place: usize,
) -> Result<String, AllocError>
    ensures { IfOk result (λ s. IfSome (L.Display.output layer) (λ word. string_bytes s ≡ line (codes "fault" ∷ word ∷ decimal number ∷ decimal place ∷ []))) }
{
    let word = layer.to_string(heap)?;
    let mut out = String::from_str(heap, "fault")?;
    push_space(&mut out)?;
    push_word(&mut out, &word)?;
    push_spaced_number(&mut out, number as usize)?;
    push_spaced_number(&mut out, place)?;
    end_line(&mut out)?;
    Ok(out)
}

// The line of a hit: its position, what it costs, and the numbers of its events.
pub fn push_hit<C: Printed>(
    out: &mut String,
    position: usize,
    cost: &C,
    numbers: &[u32],
) -> Result<(), AllocError>
    ensures { Adds result out.old out.new (line (decimal position ∷ (map signed_decimal (C.Printed.parts cost.now) ++ map decimal numbers.now))) }
{
    push_number(out, position)?;
    cost.push_parts(out)?;
    for number in numbers {
        push_spaced_number(out, *number as usize)?;
    }
    end_line(out)
}

// The line of a word and the counts after it.
pub fn push_count_line(out: &mut String, word: &str, counts: &[usize]) -> Result<(), AllocError>
    ensures { Adds result out.old out.new (line (word.now ∷ map decimal counts.now)) }
{
    push_word(out, word)?;
    for count in counts {
        push_spaced_number(out, *count)?;
    }
    end_line(out)
}

#[cfg(test)]
mod tests {
    use super::*;
    use costs::pair::Pair;
    use costs::plain::Plain;
    use std::test::Fail;

    #[test]
    fn writes_a_fault(rt: HostRuntime) -> Result<(), Fail> {
        let out = fault_line(rt.alloc(), "job", 3, 14)?;
        assert_eq!(rt; out.as_str(), "fault job 3 14\n");
        Ok(())
    }

    #[test]
    fn writes_a_report(rt: HostRuntime) -> Result<(), Fail> {
        let Some(first) = Plain::new(-20) else {
            return Err(Fail::new("-20 is no cost"));
        };
        let second = Plain::from(5);
        let mut out = String::new(rt.alloc());
        push_count_line(&mut out, "report", &[2])?;
        push_hit(&mut out, 7, &first, &[2, 1])?;
        push_hit(&mut out, 8, &Pair { first, second }, &[])?;
        push_count_line(&mut out, "end", &[2, 0, 10])?;
        assert_eq!(rt; out.as_str(), "report 2\n7 -20 2 1\n8 -20 5\nend 2 0 10\n");
        Ok(())
    }
}
