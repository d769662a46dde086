// What openings, runs and showings answer.
use crate::current::Current;
use crate::saying::{say_same, say_sizes, say_verdict};
use crate::shown::shows;
use model::limits::PART_ROOM;
use std::io;
use testing::Kind;
use testing::cases::Cases;
use testing::saying::{say_field, say_run};

// What an opening answers to a pattern.
pub(crate) fn open(rt: &impl Print, cases: &mut Cases<'_>) -> io::Result<()> {
    let opened = Current::fresh(cases);
    say_sizes(rt, "open", &opened)?;
    say_verdict(rt, opened.verdict)?;
    println!(rt)
}

// What a run of one try and a showing answer.
pub(crate) fn say_calls(
    rt: &impl Print,
    words: &str,
    current: &Current,
    room: usize,
) -> io::Result<()> {
    let ran = current.ran(1);
    print!(rt; "{words}")?;
    say_run(rt, ran.answer);
    say_same(rt, &current.search, &ran.search)?;
    print!(rt; ", show")?;
    shows(rt, current, &mut [9u8; PART_ROOM], room)
}

// What an opening answers to the list of a pattern, and what a run and a showing of the search do.
pub(crate) fn list(rt: &impl Print, cases: &mut Cases<'_>, current: &Current) -> io::Result<()> {
    say_field(rt, cases);
    let mut asked = Current::fresh(cases);
    print!(rt; ": open")?;
    say_verdict(rt, asked.verdict)?;
    asked.search = current.search;
    say_calls(rt, ", run", &asked, 4)
}

// What a showing answers with the parts that are given.
pub(crate) fn into(rt: &impl Print, cases: &mut Cases<'_>, current: &Current) -> io::Result<()> {
    let mut parts = [9u8; PART_ROOM];
    say_field(rt, cases);
    let room = cases.field(Kind::Numbers, &mut parts);
    print!(rt; ":")?;
    shows(rt, current, &mut parts, room)
}
