// Real values.
ghost use Rattle.std.specs.Prelude.{◌≡◌};
ghost use Rattle.scanning.specs.Reals.{past_either, is_exponent, is_real};

use crate::Stretch;
use crate::lines::stretch_end;
use pattern::reading::byte_at;

// Past the byte at a place before `stop`, where it is one of two.
#[tactic(auto, using(crate::proofs::Joins::joins), unfolding(crate::specs::Reals::past_either))]
fn past_either(text: &[u8], at: usize, stop: usize, one: u8, other: u8) -> usize
    ensures { result ≡ past_either text.now at stop one other }
{
    let b = byte_at(text, at);
    if at < stop && (b == one || b == other) {
        at + 1
    } else {
        at
    }
}

// An exponent up to `stop`: e or E, an optional sign, and at least one digit.
#[tactic(auto, using(crate::proofs::Joins::joins), unfolding(crate::specs::Reals::is_exponent))]
fn is_exponent(text: &[u8], at: usize, stop: usize) -> bool
    ensures { result ≡ is_exponent text.now at stop }
{
    let letter = past_either(text, at, stop, b'e', b'E');
    let from = past_either(text, letter, stop, b'+', b'-');
    let end = stretch_end(text, Stretch::Digits, from, stop);
    at < letter && from < end && end == stop
}

// A real value between two places: an optional sign, digits with an optional point, and an optional exponent.
#[tactic(auto, using(crate::proofs::Joins::joins), unfolding(crate::specs::Reals::is_real))]
pub fn is_real(text: &[u8], from: usize, stop: usize) -> bool
    ensures { result ≡ is_real text.now from stop }
{
    let start = past_either(text, from, stop, b'+', b'-');
    let point = stretch_end(text, Stretch::Digits, start, stop);
    let after = past_either(text, point, stop, b'.', b'.');
    let end = stretch_end(text, Stretch::Digits, after, stop);
    (start < point || after < end) && (end == stop || is_exponent(text, end, stop))
}
