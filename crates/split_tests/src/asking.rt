// Inputs, and answers printed.
use answering::splitting::answer;
use answering::{INPUT_ROOM, OUTPUT_ROOM};
use std::io;
use testing::Kind;
use testing::cases::Cases;
use testing::laying::first;
use testing::saying::say_field;

// The name of an input, on a line of its own.
pub(crate) fn say_name(rt: &impl Print, cases: &mut Cases<'_>) -> io::Result<()> {
    print!(rt; "# ")?;
    say_field(rt, cases);
    println!(rt)
}

// The answer to an input, with room for the longest one.
fn say_answer(rt: &impl Print, input: &[u8]) -> io::Result<()> {
    let mut out = [0u8; OUTPUT_ROOM];
    let len = answer(input, &mut out);
    rt.write_all(first(&out, len))
}

// An input written out.
pub(crate) fn answer_case(rt: &impl Print, cases: &mut Cases<'_>) -> io::Result<()> {
    let mut page = [0u8; 16384];
    say_name(rt, cases)?;
    let len = cases.field(Kind::Text, &mut page);
    say_answer(rt, first(&page, len))
}

// A long input, filled with one letter between its start and its end.
pub(crate) fn filled_case(rt: &impl Print, cases: &mut Cases<'_>) -> io::Result<()> {
    let mut fill = [0u8; 1];
    say_name(rt, cases)?;
    cases.field(Kind::Text, &mut fill);
    let len = cases.number() as usize;
    let mut page = [fill[0]; INPUT_ROOM];
    cases.ends(len, &mut page);
    say_answer(rt, first(&page, len))
}
