// What the program prints of showings.
use crate::current::Current;
use crate::saying::{say_marks, say_record};
use model::limits::PART_ROOM;
use model::{Refusal, Shown};
use std::io;
use testing::saying::say_refused;

// What a showing answers, with the first bytes of its parts where it gives a split.
fn say_show(
    rt: &impl Print,
    answer: Result<Shown, Refusal>,
    parts: &[u8],
    len: usize,
) -> io::Result<()> {
    match answer {
        Ok(Shown::Split { volume, floor }) => {
            print!(rt; " floor {floor} volume {volume} split ")?;
            say_marks(rt, parts, len)
        }
        Ok(Shown::NoneYet { floor }) => print!(rt; " floor {floor} none yet"),
        Err(refusal) => {
            say_refused(rt, refusal);
            Ok(())
        }
    }
}

// What a showing answers that is lent so many of the parts.
pub(crate) fn say_shown(
    rt: &impl Print,
    current: &Current,
    parts: &mut [u8],
    room: usize,
) -> io::Result<()> {
    let pattern = &current.pattern;
    if room > parts.len() {
        return Ok(());
    }
    let answer = search::show(
        current.search,
        pattern.m,
        pattern.n,
        pattern.nonzeros,
        pattern.list(),
        &mut parts[..room],
    );
    say_show(rt, answer, parts, pattern.nonzeros as usize)
}

// What a showing answers, and the parts after it.
pub(crate) fn shows(
    rt: &impl Print,
    current: &Current,
    parts: &mut [u8],
    room: usize,
) -> io::Result<()> {
    say_shown(rt, current, parts, room)?;
    print!(rt; " parts ")?;
    say_marks(rt, parts, room)?;
    println!(rt)
}

// A search's record and what is shown of it, on a line of its own.
pub(crate) fn say_search(rt: &impl Print, current: &Current) -> io::Result<()> {
    say_record(rt, &current.search)?;
    say_shown(rt, current, &mut [9u8; PART_ROOM], PART_ROOM)?;
    println!(rt)
}
