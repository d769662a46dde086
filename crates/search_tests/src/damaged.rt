// Searches with some of their numbers and markings replaced.
use crate::calls::say_calls;
use crate::current::Current;
use crate::saying::say_same;
use model::Search;
use std::io;
use testing::Kind;
use testing::cases::Cases;
use testing::laying::{first, lay_marks};
use testing::saying::say_field;
use trail::{MARK_ROOM, Trail};

// Replaces one of the numbers or markings of a search, by the third letter of its name, in which the names differ.
fn replace(search: &mut Search, letter: u8, number: u64, trail: Trail) {
    match letter {
        b'w' => search.m = number,
        b'l' => search.n = number,
        b'n' => search.nonzeros = number,
        b'r' => search.cap0 = number,
        b'e' => search.cap1 = number,
        b'i' => search.tries = number,
        b'o' => search.looks = number,
        b't' => search.best_count = number,
        b'm' => search.complete = number == 1,
        b's' => search.best = trail,
        b'a' => search.trail = trail,
        _ => {}
    }
}

// The search with one of its numbers or markings replaced: its name, the number or the marking's length, and its marks.
pub(crate) fn put(cases: &mut Cases<'_>, current: &mut Current) {
    let mut name = [0u8; 16];
    let mut letters = [0u8; MARK_ROOM];
    let mut marks = [0u8; MARK_ROOM];
    cases.field(Kind::Text, &mut name);
    let number = cases.number();
    let given = cases.field(Kind::Text, &mut letters);
    lay_marks(&mut marks, first(&letters, given));
    let trail = Trail {
        marks,
        len: number as usize,
    };
    replace(&mut current.search, name[2], number, trail);
}

// What a run and a showing of the search answer where one of its numbers or markings is replaced. The search itself stays.
pub(crate) fn damaged(rt: &impl Print, cases: &mut Cases<'_>, current: &Current) -> io::Result<()> {
    let mut odd = *current;
    say_field(rt, cases);
    put(cases, &mut odd);
    say_calls(rt, ": run", &odd, 6)
}

// Whether the search is the one of a pattern after so many tries.
pub(crate) fn equal(rt: &impl Print, cases: &mut Cases<'_>, current: &Current) -> io::Result<()> {
    say_field(rt, cases);
    let mut other = Current::fresh(cases);
    other.go_on(cases);
    print!(rt; ":")?;
    say_same(rt, &other.search, &current.search)?;
    println!(rt)
}
