// The fields of a line: words and numbers, the space between two of them, and the line feed after the last.
ghost use Rattle.std.specs.Prelude.{[], ◌∷◌, decimal};
ghost use Rattle.std.specs.Fmt.{signed_decimal};
ghost use Rattle.lines.specs.Lines.{Adds};

use std::alloc::AllocError;

pub fn push_word(out: &mut String, word: &str) -> Result<(), AllocError>
    ensures { Adds result out.old out.new word.now }
{
    write!(out, "{word}")
}

pub fn push_number(out: &mut String, number: usize) -> Result<(), AllocError>
    ensures { Adds result out.old out.new (decimal number) }
{
    write!(out, "{number}")
}

pub fn push_signed(out: &mut String, value: i64) -> Result<(), AllocError>
    ensures { Adds result out.old out.new (signed_decimal value) }
{
    write!(out, "{value}")
}

pub fn end_line(out: &mut String) -> Result<(), AllocError>
    ensures { Adds result out.old out.new (10 ∷ []) }
{
    writeln!(out)
}

pub(crate) fn push_space(out: &mut String) -> Result<(), AllocError>
    ensures { Adds result out.old out.new (32 ∷ []) }
{
    write!(out, " ")
}

// A number after a space.
pub(crate) fn push_spaced_number(out: &mut String, number: usize) -> Result<(), AllocError>
    ensures { Adds result out.old out.new (32 ∷ decimal number) }
{
    push_space(out)?;
    push_number(out, number)
}
