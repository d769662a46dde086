// The first line and the size line.
ghost use Rattle.std.specs.Prelude.{◌≡◌, true};
ghost use Rattle.counting.specs.Tests.{pick};
ghost use Rattle.scanning.specs.Words.{same_word, numbers_in};
ghost use Rattle.texts.specs.Header.{field_at, banner_at, header_of, short, size_line_verdict, room_verdict, square_verdict, head_verdict};

use crate::{Banner, Header};
use model::{Refusal, Word};
use pattern::checks::{refuse_if, sizes_verdict};
use readings::size_line;
use scanning::lines::{line_end, stretch_end};
use scanning::tests::move_to;
use scanning::words::{ends_at, is_integer, numbers_at, same_word, word_at};
use scanning::{Field, Numbers, Span, Stretch};

// A word of the text is this one, in any letter case.
fn is_word(text: &[u8], word: Span, spelling: &[u8]) -> bool
    ensures { result ≡ same_word text.now word.from word.stop true spelling.now }
{
    same_word(text, word.from, word.stop, true, spelling)
}

// F: the field that a word of the text names, if it names one.
#[tactic(auto, using(scanning::proofs::Joins::joins), unfolding(crate::specs::Header::field_at))]
fn field_at(text: &[u8], word: Span) -> Option<Field>
    ensures { result ≡ field_at text.now word.from word.stop }
{
    if is_word(text, word, b"integer") {
        Some(Field::Integer)
    } else if is_word(text, word, b"real") {
        Some(Field::Real)
    } else if is_word(text, word, b"pattern") {
        Some(Field::Pattern)
    } else {
        None
    }
}

// The first line, which ends at `end`.
#[tactic(auto, using(scanning::proofs::Joins::joins), unfolding(crate::specs::Header::banner_at))]
fn banner_at(text: &[u8], end: usize) -> Banner
    ensures { result ≡ banner_at text.now end }
{
    let stop = stretch_end(text, Stretch::Nonblanks, 0, end);
    let mark = same_word(text, 0, stop, false, b"%%MatrixMarket");
    let a = word_at(text, stop, end);
    let matrix = is_word(text, a, b"matrix");
    let b = word_at(text, a.stop, end);
    let coordinate = is_word(text, b, b"coordinate");
    let f = word_at(text, b.stop, end);
    let field = field_at(text, f);
    let s = word_at(text, f.stop, end);
    let general = is_word(text, s, b"general");
    let symmetric = is_word(text, s, b"symmetric");
    let last = ends_at(text, s.stop, end);
    Banner {
        fine: mark && matrix && coordinate && field.is_some() && (general || symmetric) && last,
        field: field.unwrap_or(Field::Pattern),
        symmetric,
    }
}

// The numbers of a line, whether it has its form or not.
pub(crate) fn numbers_in(line: Result<Numbers, Numbers>) -> Numbers
    ensures { result ≡ numbers_in line }
{
    match line {
        Ok(numbers) | Err(numbers) => numbers,
    }
}

// What stands before the entries.
#[tactic(auto, using(scanning::proofs::Joins::joins), unfolding(crate::specs::Header::header_of))]
pub(crate) fn header_of(text: &[u8]) -> Header
    ensures { result ≡ header_of text.now }
{
    let end = line_end(text, 0);
    let banner = banner_at(text, end);
    let line = size_line(text);
    let stop = line_end(text, line.at);
    let sizes = numbers_at(text, line.at, stop, Field::Integer);
    let numbers = numbers_in(sizes);
    Header {
        fine: banner.fine,
        field: banner.field,
        symmetric: banner.symmetric,
        sized: sizes.is_ok(),
        m: numbers.first,
        n: numbers.second,
        entries: numbers.third,
        at: line.at,
        next: line.next,
    }
}

// For so many nonzeros, the list slice has under 4 × N bytes, or for integer the parts slice under N.
#[tactic(auto, using(scanning::proofs::Joins::joins), unfolding(crate::specs::Header::short))]
fn is_short(header: Header, nonzeros: u32, list: usize, parts: usize) -> bool
    ensures { result ≡ short header nonzeros list parts }
{
    let needed = nonzeros as usize;
    list < 4 * needed || is_integer(header.field) && parts < needed
}

// 4 at the size line, for m, n and so many nonzeros.
#[tactic(auto, using(scanning::proofs::Joins::joins), unfolding(crate::specs::Header::size_line_verdict))]
fn size_line_verdict(header: Header, nonzeros: u32) -> Result<(), Refusal>
    ensures { result ≡ size_line_verdict header nonzeros }
{
    let sizes = sizes_verdict(
        u64::from(header.m),
        u64::from(header.n),
        u64::from(nonzeros),
    );
    move_to(sizes, header.at as u64)
}

// The same, then 9.
#[tactic(auto, using(scanning::proofs::Joins::joins), unfolding(crate::specs::Header::room_verdict))]
pub(crate) fn room_verdict(
    header: Header,
    nonzeros: u32,
    list: usize,
    parts: usize,
) -> Result<(), Refusal>
    ensures { result ≡ room_verdict header nonzeros list parts }
{
    size_line_verdict(header, nonzeros)?;
    refuse_if(
        is_short(header, nonzeros, list, parts),
        Word::ShortBuffer,
        0,
    )
}

// The checks of a symmetric text's sizes: 4 for m and n alone, then 15.
#[tactic(auto, using(scanning::proofs::Joins::joins), unfolding(crate::specs::Header::square_verdict))]
fn square_verdict(header: Header) -> Result<(), Refusal>
    ensures { result ≡ square_verdict header }
{
    size_line_verdict(header, 0)?;
    refuse_if(header.m != header.n, Word::NotSquare, header.at as u64)
}

// The checks of the size line's numbers: 4 and 9, or for symmetric 4 and 15.
#[tactic(auto, using(scanning::proofs::Joins::joins))]
fn sizes_of(header: Header, list: usize, parts: usize) -> Result<(), Refusal>
    ensures { result ≡ pick header.symmetric (square_verdict header) (room_verdict header header.entries list parts) }
{
    if header.symmetric {
        square_verdict(header)
    } else {
        room_verdict(header, header.entries, list, parts)
    }
}

// The checks before the entries: 4 for the text, 1, 2, then those of the size line's numbers.
#[tactic(auto, using(scanning::proofs::Joins::joins), unfolding(crate::specs::Header::head_verdict))]
pub(crate) fn head_verdict(
    header: Header,
    text: usize,
    list: usize,
    parts: usize,
) -> Result<(), Refusal>
    ensures { result ≡ head_verdict header text list parts }
{
    refuse_if(65536 < text, Word::TooBig, 0)?;
    refuse_if(!header.fine, Word::Banner, 0)?;
    refuse_if(!header.sized, Word::SizeLine, header.at as u64)?;
    sizes_of(header, list, parts)
}
