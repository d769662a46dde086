// What the program prints of cases, marks, answers and searches.
use crate::current::Current;
use model::{Refusal, Search};
use pattern::reading::byte_at;
use std::io;
use testing::cases::Cases;
use testing::saying::{say_field, say_refused};
use trail::Trail;

// The words of a case, on a line of their own.
pub(crate) fn text(rt: &impl Print, cases: &mut Cases<'_>) -> io::Result<()> {
    say_field(rt, cases);
    println!(rt)
}

// Words, and the numbers of a pattern.
pub(crate) fn say_sizes(rt: &impl Print, words: &str, current: &Current) -> io::Result<()> {
    let pattern = &current.pattern;
    let caps = current.caps;
    print!(rt; "{words} {} {} {}", pattern.m, pattern.n, pattern.nonzeros)?;
    print!(rt; " caps {} {}", caps.cap0, caps.cap1)
}

// The letter of a mark or a part; 9 for a byte that a call has not written.
fn letter_of(mark: u8) -> char {
    match mark {
        0 => '0',
        1 => '1',
        2 => 'c',
        9 => '9',
        _ => '?',
    }
}

// The first marks or parts of some bytes.
pub(crate) fn say_marks(rt: &impl Print, bytes: &[u8], len: usize) -> io::Result<()> {
    for i in 0..len {
        rt.print(letter_of(byte_at(bytes, i)))?;
    }
    Ok(())
}

// The marks of a marking, or a full stop where it has none.
fn say_marking(rt: &impl Print, trail: &Trail) -> io::Result<()> {
    if trail.len == 0 {
        return print!(rt; ".");
    }
    say_marks(rt, &trail.marks, trail.len)
}

// The best marking, or a dash where there is none.
fn say_best(rt: &impl Print, search: &Search) -> io::Result<()> {
    if !search.found {
        return print!(rt; "-");
    }
    say_marking(rt, &search.best)
}

// What an opening answers.
pub(crate) fn say_verdict(rt: &impl Print, verdict: Result<(), Refusal>) -> io::Result<()> {
    match verdict {
        Ok(()) => print!(rt; " accepted"),
        Err(refusal) => {
            say_refused(rt, refusal);
            Ok(())
        }
    }
}

// A search's record.
pub(crate) fn say_record(rt: &impl Print, search: &Search) -> io::Result<()> {
    let (tries, looks, best) = (search.tries, search.looks, search.best_count);
    print!(rt; "  tries {tries} looks {looks} best {best} bestmarking ")?;
    say_best(rt, search)?;
    let state = if search.complete { "complete" } else { "open" };
    print!(rt; " {state} trail ")?;
    say_marking(rt, &search.trail)
}

// Says whether a search is as it was.
pub(crate) fn say_same(rt: &impl Print, before: &Search, after: &Search) -> io::Result<()> {
    let same = before == after;
    print!(rt; "{}", if same { " unchanged" } else { " changed" })
}
