// Symmetric texts of many entries, opened out.
use crate::reading::say_reading;
use model::limits::{LIST_ROOM, PART_ROOM};
use pattern::reading::put_entry;
use std::io;
use testing::Kind;
use testing::cases::Cases;
use testing::comparing::same_count;
use testing::laying::{first, lay};
use testing::saying::say_field;

// The last digit of a number.
fn digit_of(x: usize) -> u8 {
    b'0' + (x % 10) as u8
}

// The last three digits of a number and a letter laid out in a page, and the place after them.
fn lay_digits(page: &mut [u8], at: usize, x: usize, letter: u8) -> usize {
    let bytes = [digit_of(x / 100), digit_of(x / 10), digit_of(x), letter];
    lay(page, at, &bytes)
}

// So many entries laid out in a page, row by row from row 181 on in columns 1 to 20, and the place after them.
fn lay_entries(page: &mut [u8], at: usize, entries: usize) -> usize {
    let mut next = at;
    for t in 0..entries {
        next = lay_digits(page, next, 181 + t / 20, b' ');
        next = lay_digits(page, next, 1 + t % 20, b'\n');
    }
    next
}

// The list of the first 2,000 entries opened out: rows 1 to 20 with columns 181 to 280, then rows 181 to 280 with columns 1 to 20.
fn fill_opened(list: &mut [u8]) {
    for t in 0..2000 {
        put_entry(list, t, (t / 100) as u16, (180 + t % 100) as u16);
        put_entry(list, 2000 + t, (180 + t / 20) as u16, (t % 20) as u16);
    }
}

// A text read, how many first bytes of the list are those of the first 2,000 entries opened out, and how many first bytes are kept.
fn read_opened(rt: &impl Print, text: &[u8]) -> io::Result<()> {
    let mut list = [9u8; LIST_ROOM];
    let mut parts = [9u8; PART_ROOM];
    let mut opened = [9u8; LIST_ROOM];
    let nines = [9u8; LIST_ROOM];
    fill_opened(&mut opened);
    say_reading(rt, text, &mut list, &mut parts)?;
    let same = same_count(&list, &opened);
    let kept = same_count(&list, &nines);
    let parted = same_count(&parts, &nines);
    println!(rt; ", opened bytes of the list {same}, kept {kept}, kept of the parts {parted}")
}

// A text with many entries between its start and its end.
pub(crate) fn opened_case(rt: &impl Print, cases: &mut Cases<'_>) -> io::Result<()> {
    let mut page = [0u8; 16384];
    let mut last = [0u8; 16];
    say_field(rt, cases);
    let entries = cases.number();
    let start = cases.field(Kind::Text, &mut page);
    let end = cases.field(Kind::Text, &mut last);
    let from = lay_entries(&mut page, start, entries as usize);
    let len = lay(&mut page, from, first(&last, end));
    read_opened(rt, first(&page, len))
}
