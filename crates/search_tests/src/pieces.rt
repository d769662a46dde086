// A search run piece by piece, with refused calls between the pieces.
use crate::current::Current;
use crate::saying::say_same;
use crate::shown::say_shown;
use model::limits::PART_ROOM;
use std::io;
use testing::cases::Cases;
use testing::saying::say_run;

// Goes on with the search after a run, whose answer is printed.
pub(crate) fn run(rt: &impl Print, cases: &mut Cases<'_>, current: &mut Current) -> io::Result<()> {
    let budget = cases.number();
    let ran = current.ran(budget);
    current.search = ran.search;
    print!(rt; "  run {budget}")?;
    say_run(rt, ran.answer);
    let tries = ran.search.tries;
    println!(rt; " tries {tries}")
}

// Goes on with the search after a run where the row of nonzero 1 has these bytes, low and high. The list itself changes too.
fn run_with(rt: &impl Print, current: &mut Current, low: u8, high: u8) -> io::Result<()> {
    current.pattern.room[4] = low;
    current.pattern.room[5] = high;
    let ran = current.ran(5);
    current.search = ran.search;
    say_run(rt, ran.answer);
    Ok(())
}

// A run off the matrix, a run with a number that is split, and a showing whose parts have one byte too few: all are refused, and change nothing.
pub(crate) fn misuse(rt: &impl Print, current: &Current) -> io::Result<()> {
    let mut odd = *current;
    print!(rt; "  run off matrix")?;
    run_with(rt, &mut odd, 255, 1)?;
    print!(rt; ", run split number")?;
    run_with(rt, &mut odd, 0, 2)?;
    print!(rt; ", show short parts")?;
    odd.pattern = current.pattern;
    say_shown(rt, &odd, &mut [9u8; PART_ROOM], 21)?;
    say_same(rt, &current.search, &odd.search)?;
    println!(rt)
}
