// A run of digits.
ghost use Rattle.std.specs.Prelude.{◌≡◌, ◌+◌, ◌-◌, ◌*◌, ◌<◌, ◌≤◌, true, length, IfNone, IfSome};
ghost use Rattle.std.specs.Str.{all_ascii_digits};
ghost use Rattle.job.specs.Limits.{max_number};

use crate::MAX_NUMBER;

#[derive(Clone, Copy)]
pub struct Numeral<'a> {
    pub(crate) digits: &'a [u8],
    ghost some: { 0 < length digits.now },
    ghost all: { all_ascii_digits digits.now ≡ true },
}

// The number with a digit more, none above the limit. It asks nothing of the two, so that a fold may call it.
fn with_digit(n: u32, digit: u8) -> Option<u32>
    ensures some { IfSome result (λ m. (m ≡ n * 10 + (digit - 48)) × (m ≤ max_number)) }
    ensures none { IfNone result (max_number < n * 10 + (digit - 48)) }
{
    let digit = u32::from(digit.saturating_sub(b'0'));
    let n = n.checked_mul(10)?.checked_add(digit)?;
    (n <= MAX_NUMBER).then_some(n)
}

impl<'a> Numeral<'a> {
    ghost use Rattle.std.specs.Prelude.{◌≡◌};
    ghost use Rattle.job.specs.Numerals.{needless_zero, numeral};

    // The number, up to the limit and without a needless zero.
    pub(crate) fn value(&self) -> Option<u32>
        ensures { result ≡ numeral self.now.digits.now }
    {
        if self.is_needless() {
            return None;
        }
        self.digits.iter().try_fold(0, |n, d| with_digit(n, *d))
    }

    // Whether the digits begin with a zero that is not the whole number.
    fn is_needless(&self) -> bool
        ensures { result ≡ needless_zero self.now.digits.now }
    {
        matches!(self.digits, [b'0', _, ..])
    }
}
