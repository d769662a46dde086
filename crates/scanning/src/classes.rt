// The classes of bytes.
ghost use Rattle.std.specs.Prelude.{◌≡◌};
ghost use Rattle.scanning.specs.Classes.{class_of, stretches_over, cased, digit_of};

use crate::{Class, Stretch};

// Each byte falls into digit, blank, letter, percent sign, line end or anything else.
#[tactic(auto, using(crate::proofs::Joins::joins), unfolding(crate::specs::Classes::class_of, crate::specs::Classes::between))]
pub(crate) fn class_of(b: u8) -> Class
    ensures { result ≡ class_of b }
{
    match b {
        b'0'..=b'9' => Class::Digit,
        b' ' | b'\t' => Class::Blank,
        b'a'..=b'z' | b'A'..=b'Z' => Class::Letter,
        b'%' => Class::Percent,
        b'\n' => Class::LineEnd,
        _ => Class::Other,
    }
}

// A stretch goes on over a byte of this class.
pub(crate) fn stretches_over(stretch: Stretch, class: Class) -> bool
    ensures { result ≡ stretches_over stretch class }
{
    match stretch {
        Stretch::Line => class != Class::LineEnd,
        Stretch::Blanks => class == Class::Blank,
        Stretch::Nonblanks => class != Class::Blank,
        Stretch::Digits => class == Class::Digit,
    }
}

// A byte in any letter case, as its small letter, or as it is.
#[tactic(auto, using(crate::proofs::Bytes::cased_same, crate::proofs::Bytes::cased_small))]
pub(crate) fn in_case(any: bool, b: u8) -> u8
    ensures { result ≡ cased any b }
{
    if any { b.to_ascii_lowercase() } else { b }
}

// The value of a digit, and 0 for any other byte.
#[tactic(auto, using(crate::proofs::Bytes::digit_in, crate::proofs::Bytes::digit_below, crate::proofs::Bytes::digit_above))]
pub(crate) fn digit_of(b: u8) -> u8
    ensures { result ≡ digit_of b }
{
    match b {
        b'0'..=b'9' => b - b'0',
        _ => 0,
    }
}
