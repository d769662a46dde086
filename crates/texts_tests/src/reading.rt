// Texts that are read.
use crate::saying::{say_left, say_read};
use std::io;
use testing::Kind;
use testing::cases::Cases;
use testing::laying::first;
use testing::saying::say_field;
use texts::read::read;

// What a reading into these slices answers.
pub(crate) fn say_reading(
    rt: &impl Print,
    text: &[u8],
    list: &mut [u8],
    parts: &mut [u8],
) -> io::Result<()> {
    say_read(rt, read(text, list, parts))
}

// A text read into slices of these lengths, at most 16 bytes for the list and 4 for the parts, and what it leaves in them.
pub(crate) fn read_within(
    rt: &impl Print,
    text: &[u8],
    listed: usize,
    parted: usize,
) -> io::Result<()> {
    let mut list = [9u8; 16];
    let mut parts = [9u8; 4];
    if listed > 16 || parted > 4 {
        return Ok(());
    }
    say_reading(rt, text, &mut list[..listed], &mut parts[..parted])?;
    say_left(rt, ", list", &list[..listed])?;
    say_left(rt, ", parts", &parts[..parted])?;
    println!(rt)
}

// A text read into slices of given lengths.
pub(crate) fn read_case(rt: &impl Print, cases: &mut Cases<'_>) -> io::Result<()> {
    let mut page = [0u8; 256];
    say_field(rt, cases);
    let listed = cases.number();
    let parted = cases.number();
    let len = cases.field(Kind::Text, &mut page);
    read_within(rt, first(&page, len), listed as usize, parted as usize)
}

// A long text, filled with one letter between its start and its end.
pub(crate) fn filled_case(rt: &impl Print, cases: &mut Cases<'_>) -> io::Result<()> {
    let mut fill = [0u8; 1];
    say_field(rt, cases);
    cases.field(Kind::Text, &mut fill);
    let len = cases.number() as usize;
    let mut page = [fill[0]; 65537];
    cases.ends(len, &mut page);
    read_within(rt, first(&page, len), 16, 4)
}
