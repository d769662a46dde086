// Outputs of several lengths: the answer's length is given, and what falls past the end is left out.
use crate::asking::say_name;
use answering::splitting::answer;
use std::io;
use testing::Kind;
use testing::cases::Cases;
use testing::laying::first;

// The length of an answer into the first bytes of a page.
fn answer_into(input: &[u8], page: &mut [u8], room: usize) -> usize {
    if room <= page.len() {
        answer(input, &mut page[..room])
    } else {
        0
    }
}

// An answer into the first bytes of a page of 124 points: its length, and every byte of the page after it.
fn answer_within(rt: &impl Print, input: &[u8], room: usize) -> io::Result<()> {
    let mut page = [b'.'; 124];
    let len = answer_into(input, &mut page, room);
    println!(rt; "length {len}")?;
    rt.write_all(&page)?;
    println!(rt; "|")
}

// An input, and the room for its answer.
pub(crate) fn within_case(rt: &impl Print, cases: &mut Cases<'_>) -> io::Result<()> {
    let mut page = [0u8; 256];
    say_name(rt, cases)?;
    let room = cases.number();
    let len = cases.field(Kind::Text, &mut page);
    answer_within(rt, first(&page, len), room as usize)
}
