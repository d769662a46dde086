// The history of a search: after each call the answers and the searches of both ways are compared.
use crate::lending::{lend, run_beside};
use model::limits::LIST_ROOM;
use model::{Ran, Search};
use state::holding::no_search;
use std::io;
use testing::cases::Cases;
use testing::patterns::Pattern;
use testing::saying::{say_field, say_run};
use trail::MARK_ROOM;

// The answer and the tries of a run, and whether another one has the same answer and the same search.
fn say_both(rt: &impl Print, first: &Ran, second: &Ran) -> io::Result<()> {
    say_run(rt, first.answer);
    let tries = first.search.tries;
    let answer = if first.answer == second.answer {
        "same"
    } else {
        "another"
    };
    let search = if first.search == second.search {
        "same"
    } else {
        "another"
    };
    print!(rt; " tries {tries} {answer} answer {search} search")
}

// A run with a budget and a try after it, lent and by value, on a line of its own; and the search that was lent.
fn step(rt: &impl Print, search: Search, pattern: &Pattern, budget: u64) -> io::Result<Search> {
    let lent = lend(search, pattern, budget);
    let beside = run_beside(search, pattern, budget);
    print!(rt; ": run")?;
    say_both(rt, &lent.ran, &beside.ran)?;
    print!(rt; ", try")?;
    say_both(rt, &lent.tried, &beside.tried)?;
    println!(rt)?;
    Ok(lent.tried.search)
}

// The step that a case gives.
pub(crate) fn step_case(
    rt: &impl Print,
    cases: &mut Cases<'_>,
    search: &mut Search,
) -> io::Result<()> {
    say_field(rt, cases);
    let pattern = cases.pattern();
    let budget = cases.number();
    *search = step(rt, *search, &pattern, budget)?;
    Ok(())
}

// The list of the 3 by 2 pattern that is searched.
const SAMPLE: [u8; 16] = [0, 0, 0, 0, 0, 0, 1, 0, 1, 0, 0, 0, 2, 0, 1, 0];

// The pattern.
fn sample() -> Pattern {
    let mut room = [0u8; LIST_ROOM];
    room[..16].copy_from_slice(&SAMPLE);
    Pattern {
        m: 3,
        n: 2,
        nonzeros: 4,
        room,
        len: 16,
    }
}

// A fresh search of the pattern.
pub(crate) fn fresh() -> Search {
    search::open(3, 2, 4, &SAMPLE, 2, 2).unwrap_or(no_search())
}

// A run with this budget, and a try, on the pattern's list.
fn go(rt: &impl Print, words: &str, search: Search, budget: u64) -> io::Result<()> {
    print!(rt; "{words}")?;
    step(rt, search, &sample(), budget)?;
    Ok(())
}

// Searches that are no state, or whose tries or looks are at their limit.
fn states(rt: &impl Print, search: &Search) -> io::Result<()> {
    let mut s = *search;
    s.tries = 10_000_000_000_001;
    go(rt, "tries over the limit", s, 3)?;
    s.tries = 9_999_999_999_997;
    go(rt, "tries near the limit", s, 3)?;
    let mut s = *search;
    s.trail.len = MARK_ROOM + 1;
    go(rt, "trail longer than its bytes", s, 3)?;
    let mut s = *search;
    s.looks = 120;
    go(rt, "looks of tries x m x N", s, 3)?;
    s.looks = 121;
    go(rt, "looks over tries x m x N", s, 3)
}

// Marks past a trail's length, which an accepted run clears.
fn bytes_past(rt: &impl Print, search: &Search) -> io::Result<()> {
    let mut s = *search;
    s.trail.marks[MARK_ROOM - 1] = 3;
    go(rt, "a mark past the length, refused", s, 1_000_001)?;
    go(rt, "a mark past the length, cleared", s, 0)
}

// Steps on damaged copies of a search.
pub(crate) fn damaged(rt: &impl Print, search: &Search) -> io::Result<()> {
    states(rt, search)?;
    bytes_past(rt, search)
}
