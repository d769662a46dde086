// Words and numbers of a line.
ghost use Rattle.std.specs.Prelude.{◌≡◌, eqb, get_or};
ghost use Rattle.scanning.specs.Classes.{cased};
ghost use Rattle.scanning.specs.Words.{word_at, same_word, is_number, number_between, number_value, number_at, ends_at, third_at, numbers_at, is_integer};

use crate::classes::{digit_of, in_case};
use crate::lines::stretch_end;
use crate::reals::is_real;
use crate::{Field, Number, Numbers, Span, Stretch};
use pattern::reading::byte_at;

// The next word of a line that ends at `end`.
#[tactic(auto, using(crate::proofs::Joins::joins), unfolding(crate::specs::Words::word_at))]
pub fn word_at(text: &[u8], at: usize, end: usize) -> Span
    ensures { result ≡ word_at text.now at end }
{
    let from = stretch_end(text, Stretch::Blanks, at, end);
    let stop = stretch_end(text, Stretch::Nonblanks, from, end);
    Span { from, stop }
}

// The byte at a place is this one, in any letter case or in this one.
fn is_byte(text: &[u8], at: usize, any: bool, b: u8) -> bool
    ensures { result ≡ eqb (cased any (get_or text.now at 0)) b }
{
    in_case(any, byte_at(text, at)) == b
}

// The bytes between two places spell a word.
#[tactic(auto, using(crate::proofs::Joins::joins, crate::proofs::Scans::past_here, crate::proofs::Scans::past_on, crate::proofs::Scans::past_end), unfolding(crate::specs::Words::same_word, crate::specs::Words::spells))]
pub fn same_word(text: &[u8], from: usize, stop: usize, any: bool, spelling: &[u8]) -> bool
    ensures { result ≡ same_word text.now from stop any spelling.now }
{
    if stop.saturating_sub(from) != spelling.len() {
        return false;
    }
    for (i, b) in spelling.iter().enumerate() {
        if !is_byte(text, from + i, any, *b) {
            return false;
        }
    }
    true
}

// A number: 1 to 9 digits.
#[tactic(auto, using(crate::proofs::Joins::joins), unfolding(crate::specs::Words::is_number))]
pub fn is_number(text: &[u8], from: usize, stop: usize) -> bool
    ensures { result ≡ is_number text.now from stop }
{
    from < stop && stop - from <= 9 && stretch_end(text, Stretch::Digits, from, stop) == stop
}

/// The value of a number, and 0 where there is none.
#[tactic(auto, using(crate::proofs::Joins::joins, crate::proofs::Scans::number_start, crate::proofs::Scans::number_long, crate::proofs::Scans::value_small, crate::proofs::Scans::value_start, crate::proofs::Scans::value_next, crate::proofs::Scans::digit_small), unfolding(crate::specs::Words::number_value))]
pub fn number_value(text: &[u8], from: usize, stop: usize) -> u32
    ensures { result ≡ number_value text.now from stop }
{
    if !is_number(text, from, stop) {
        return 0;
    }
    let mut value = 0;
    for i in from..stop {
        value = value * 10 + u32::from(digit_of(byte_at(text, i)));
    }
    value
}

/// The number between two places, where there is one.
#[tactic(auto, using(crate::proofs::Joins::joins), unfolding(crate::specs::Words::number_value, crate::specs::Words::number_between))]
pub fn number_between(text: &[u8], from: usize, stop: usize) -> Option<u32>
    ensures { result ≡ number_between text.now from stop }
{
    if is_number(text, from, stop) {
        Some(number_value(text, from, stop))
    } else {
        None
    }
}

// The next word of a line as a number.
#[tactic(auto, using(crate::proofs::Joins::joins), unfolding(crate::specs::Words::number_at))]
fn number_at(text: &[u8], at: usize, end: usize) -> Number
    ensures { result ≡ number_at text.now at end }
{
    let word = word_at(text, at, end);
    Number {
        value: number_between(text, word.from, word.stop),
        stop: word.stop,
    }
}

// No word is left.
#[tactic(auto, using(crate::proofs::Joins::joins), unfolding(crate::specs::Words::ends_at))]
pub fn ends_at(text: &[u8], at: usize, end: usize) -> bool
    ensures { result ≡ ends_at text.now at end }
{
    stretch_end(text, Stretch::Blanks, at, end) == end
}

// What stands after row and column: nothing, a part or a real value; where it is no part it counts as 1.
#[tactic(auto, using(crate::proofs::Joins::joins))]
fn third_at(text: &[u8], at: usize, end: usize, field: Field) -> Number
    ensures { result ≡ third_at field text.now at end }
{
    match field {
        Field::Pattern => Number {
            value: Some(1),
            stop: at,
        },
        Field::Integer => number_at(text, at, end),
        Field::Real => {
            let word = word_at(text, at, end);
            Number {
                value: is_real(text, word.from, word.stop).then_some(1),
                stop: word.stop,
            }
        }
    }
}

/// The numbers of a line, as the field has them: `Ok` where the line has them and no further word, else `Err` with what its words give;
/// a word that is no number gives 0, and 1 as the third of real.
#[tactic(auto, using(crate::proofs::Joins::joins), unfolding(crate::specs::Words::numbers_at))]
pub fn numbers_at(text: &[u8], at: usize, end: usize, field: Field) -> Result<Numbers, Numbers>
    ensures { result ≡ numbers_at text.now at end field }
{
    let a = number_at(text, at, end);
    let b = number_at(text, a.stop, end);
    let c = third_at(text, b.stop, end, field);
    let without = if is_integer(field) { 0 } else { 1 };
    let numbers = Numbers {
        first: a.value.unwrap_or(0),
        second: b.value.unwrap_or(0),
        third: c.value.unwrap_or(without),
    };
    let all = a.value.is_some() && b.value.is_some() && c.value.is_some();
    if all && ends_at(text, c.stop, end) {
        Ok(numbers)
    } else {
        Err(numbers)
    }
}

// The field's entries have parts.
pub fn is_integer(field: Field) -> bool
    ensures { result ≡ is_integer field }
{
    field == Field::Integer
}
