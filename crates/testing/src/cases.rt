// The cases of a test, read field by field from a program's input. A field ends with a bar, with its line or with the input.
ghost use Rattle.std.specs.Prelude.{◌≡◌, ◌≤◌, ◌<◌, MatchOption, get_or, []};
ghost use Rattle.testing.specs.declared.Kind.TheVariants.{Text};
ghost use Rattle.testing.specs.Laid.{place_past, laid};
ghost use Rattle.testing.specs.Turns.{letter_of, past_kind, Answered};
ghost use Rattle.testing.specs.Cases.{ends_field, place_next, field_of, escaped_byte, letter_given, is_digit, grown, digits_at, number_at, number_of, past_number, number_given, given, bytes_of, field_at, list_at, ends_laid};

use crate::laying::{first, lay};
use crate::{Field, Kind};
use pattern::reading::byte_at;
use std::io;

/// A text of cases, and the place of its next unread field.
#[derive(Clone, Copy)]
pub struct Cases<'a> {
    pub text: &'a [u8],
    pub at: usize,
}

impl Cases<'_> {
    /// The number of the next field.
    pub fn number(&mut self) -> u64
        ensures value { result ≡ number_of self.old.text.now self.old.at }
        ensures rest { self.new ≡ record self.old { at = past_number self.old.text.now self.old.at } }
    {
        let field = number_at(self.text, self.at);
        self.at = field.next;
        field.value
    }

    /// Lays out the bytes of the next field in a page from its start on, and counts them. What falls past the page's end is left out, and
    /// counted.
    pub fn field(&mut self, kind: Kind, page: &mut [u8]) -> usize
        ensures value { result ≡ (field_at kind self.old.text.now self.old.at page.old).0.value }
        ensures laid { page.new ≡ (field_at kind self.old.text.now self.old.at page.old).1 }
        ensures rest { self.new ≡ record self.old { at = (field_at kind self.old.text.now self.old.at page.old).0.next } }
    {
        let field = field_at(self.text, self.at, kind, page);
        self.at = field.next;
        field.value as usize
    }

    /// Lays out the bytes of a list in a page from its start on, and counts them: of its row and column numbers, or one by one after the letter
    /// b and a blank.
    pub fn list(&mut self, page: &mut [u8]) -> usize
        ensures value { result ≡ (list_at self.old.text.now self.old.at page.old).0.value }
        ensures laid { page.new ≡ (list_at self.old.text.now self.old.at page.old).1 }
        ensures rest { self.new ≡ record self.old { at = (list_at self.old.text.now self.old.at page.old).0.next } }
    {
        let field = list_at(self.text, self.at, page);
        self.at = field.next;
        field.value as usize
    }

    /// Lays out a text's start at a page's start, and its end, of at most 128 bytes, before the place `stop`: two fields.
    pub fn ends(&mut self, stop: usize, page: &mut [u8])
        ensures laid { page.new ≡ (ends_laid self.old.text.now self.old.at stop page.old).1 }
        ensures rest { self.new ≡ record self.old { at = (ends_laid self.old.text.now self.old.at stop page.old).0 } }
    {
        self.at = lay_ends(self.text, self.at, stop, page);
    }

    /// The letter at the place of the next field, or 0 past the end.
    pub fn letter(&self) -> u8
        ensures { result ≡ get_or self.now.text.now self.now.at 0 }
    {
        byte_at(self.text, self.at)
    }

    /// The first letter of the next field, which is passed over.
    pub fn kind(&mut self) -> u8
        ensures value { result ≡ get_or self.old.text.now self.old.at 0 }
        ensures rest { self.new ≡ record self.old { at = (field_at Text self.old.text.now self.old.at []).0.next } }
    {
        let letter = self.letter();
        self.field(Kind::Text, &mut []);
        letter
    }

    /// The first letter of the kind of the next case, which is passed over, or `None` where no case begins before a place.
    pub fn next_case(&mut self, end: usize) -> Option<u8>
        ensures { MatchOption result ((end ≤ self.old.at) × (self.new ≡ self.old))
            (λ letter. (self.old.at < end) × (letter ≡ letter_of self.old) × (self.new ≡ past_kind self.old)) }
    {
        if end <= self.at {
            return None;
        }
        Some(self.kind())
    }
}

/// Answers the cases that begin before a place, one by one: the function takes the first letter of a case's kind, and reads its fields. It is
/// called up to its first error, and as often as there are bytes before that place at most.
pub fn each_case<F: FnMut(u8, &mut Cases<'_>) -> io::Result<()>>(
    text: &[u8],
    end: usize,
    mut answer: F,
) -> io::Result<()>
    requires { F.IsAlwaysCallable answer }
    ensures { (last : F) × Answered F.FnMut end end answer (record { text = text.entry; at = 0 }) result last }
{
    let mut cases = Cases { text, at: 0 };
    for _ in 0..end {
        let Some(kind) = cases.next_case(end) else {
            break;
        };
        let answered = answer(kind, &mut cases);
        if answered.is_err() {
            return answered;
        }
    }
    Ok(())
}

// The letter at a place, or a line feed past the end.
fn letter_at(text: &[u8], at: usize) -> u8
    ensures { result ≡ get_or text.now at 10 }
{
    text.get(at).copied().unwrap_or(b'\n')
}

// A letter that ends a field: a bar or a line feed.
fn ends_field(letter: u8) -> bool
    ensures { result ≡ ends_field letter }
{
    letter == b'|' || letter == b'\n'
}

// The place after another, or the same past the end.
#[tactic(auto, unfolding(counting::specs::Tests::pick))]
fn place_next(text: &[u8], at: usize) -> usize
    ensures { result ≡ place_next text.now at }
{
    if at < text.len() { at + 1 } else { at }
}

// A field that gives this number and ends at a place.
#[tactic(auto, unfolding(crate::specs::Cases::field_of))]
fn field_of(text: &[u8], value: u64, end: usize) -> Field
    ensures { result ≡ field_of text.now value end }
{
    Field {
        value,
        next: place_next(text, end),
    }
}

// The byte that a letter after a backslash stands for: n, r, t and v as in C, 0 for a zero byte, any other for 255.
#[tactic(auto, unfolding(counting::specs::Tests::pick))]
fn escaped_byte(letter: u8) -> u8
    ensures { result ≡ escaped_byte letter }
{
    match letter {
        b'n' => 10,
        b'r' => 13,
        b't' => 9,
        b'v' => 11,
        b'0' => 0,
        _ => 255,
    }
}

// The byte that is given at a place by a letter, or by a backslash and a letter; and the place after it.
#[tactic(auto, unfolding(crate::specs::Cases::letter_given, counting::specs::Tests::pick))]
fn letter_given(text: &[u8], at: usize) -> Field
    ensures { result ≡ letter_given text.now at }
{
    let letter = letter_at(text, at);
    if letter == b'\\' {
        let next = place_next(text, at);
        let second = letter_at(text, next);
        let byte = escaped_byte(second);
        return field_of(text, u64::from(byte), next);
    }
    field_of(text, u64::from(letter), at)
}

// A digit.
fn is_digit(letter: u8) -> bool
    ensures { result ≡ is_digit letter }
{
    letter.is_ascii_digit()
}

// A number with a digit more, whose letter is 48 and the digit. Past 18,446,744,073,709,551,609 it is the greatest of eight bytes.
#[tactic(auto, unfolding(crate::specs::Cases::grown, counting::specs::Tests::pick))]
fn grown(value: u64, letter: u8) -> u64
    ensures { result ≡ grown value letter }
{
    if value <= 1_844_674_407_370_955_160 {
        value * 10 + u64::from(letter % 16)
    } else {
        u64::MAX
    }
}

// The number whose digits stand from a place on, and the place after them.
#[tactic(auto, unfolding(crate::specs::Cases::digits_at))]
fn digits_at(text: &[u8], at: usize) -> Field
    ensures { result ≡ digits_at text.now at }
{
    let mut value: u64 = 0;
    for next in at..text.len() {
        let letter = text[next];
        if !is_digit(letter) {
            return Field { value, next };
        }
        value = grown(value, letter);
    }
    Field {
        value,
        next: at.max(text.len()),
    }
}

/// The number of a field.
#[tactic(auto, unfolding(crate::specs::Cases::number_at))]
pub fn number_at(text: &[u8], at: usize) -> Field
    ensures { result ≡ number_at text.now at }
{
    let digits = digits_at(text, at);
    field_of(text, digits.value, digits.next)
}

// The number that is given at a place of a field of numbers, and the place of the next one or of the field's end.
#[tactic(auto, unfolding(crate::specs::Cases::number_given, counting::specs::Tests::pick))]
fn number_given(text: &[u8], at: usize) -> Field
    ensures { result ≡ number_given text.now at }
{
    let digits = digits_at(text, at);
    let letter = letter_at(text, digits.next);
    if ends_field(letter) {
        return digits;
    }
    field_of(text, digits.value, digits.next)
}

// The byte or the number that is given at a place, and where the field goes on.
fn given_at(text: &[u8], at: usize, kind: Kind) -> Field
    ensures { result ≡ given text.now at kind }
{
    match kind {
        Kind::Text => letter_given(text, at),
        Kind::Numbers | Kind::Lines => number_given(text, at),
    }
}

// The bytes of what is given, laid out in a page from a place on, and the place after them.
fn lay_given(page: &mut [u8], at: usize, kind: Kind, value: u64) -> usize
    ensures { (result ≡ place_past at (bytes_of kind value))
        × (page.new ≡ laid page.old at (bytes_of kind value)) }
{
    let low = (value % 256) as u8;
    let high = (value / 256 % 256) as u8;
    match kind {
        Kind::Text | Kind::Numbers => lay(page, at, &[low]),
        Kind::Lines => lay(page, at, &[low, high]),
    }
}

/// The bytes of a field, laid out in a page from its start on. What falls past the page's end is left out, and counted.
#[tactic(auto, unfolding(crate::specs::Cases::field_at))]
pub fn field_at(text: &[u8], at: usize, kind: Kind, page: &mut [u8]) -> Field
    ensures { (result ≡ (field_at kind text.now at page.old).0)
        × (page.new ≡ (field_at kind text.now at page.old).1) }
{
    let mut len: usize = 0;
    let mut next = at;
    for _ in 0..text.len() {
        let letter = letter_at(text, next);
        if ends_field(letter) {
            break;
        }
        let given = given_at(text, next, kind);
        len = lay_given(page, len, kind, given.value);
        next = given.next;
    }
    field_of(text, len as u64, next)
}

/// The bytes of a list, laid out in a page from its start on: of its row and column numbers, or one by one after the letter b and a blank.
#[tactic(auto, unfolding(crate::specs::Cases::list_at, counting::specs::Tests::pick))]
pub fn list_at(text: &[u8], at: usize, page: &mut [u8]) -> Field
    ensures { (result ≡ (list_at text.now at page.old).0)
        × (page.new ≡ (list_at text.now at page.old).1) }
{
    if letter_at(text, at) == b'b' {
        let blank = place_next(text, at);
        let start = place_next(text, blank);
        return field_at(text, start, Kind::Numbers, page);
    }
    field_at(text, at, Kind::Lines, page)
}

/// A text's start laid out at a page's start, and its end, of at most 128 bytes, before a place: two fields. Gives the place of the next one.
#[tactic(auto, unfolding(crate::specs::Cases::ends_laid))]
pub fn lay_ends(text: &[u8], at: usize, stop: usize, page: &mut [u8]) -> usize
    ensures { (result ≡ (ends_laid text.now at stop page.old).0)
        × (page.new ≡ (ends_laid text.now at stop page.old).1) }
{
    let mut last = [0u8; 128];
    let start = field_at(text, at, Kind::Text, page);
    let end = field_at(text, start.next, Kind::Text, &mut last);
    let len = end.value as usize;
    lay(page, stop.saturating_sub(len), first(&last, len));
    end.next
}
