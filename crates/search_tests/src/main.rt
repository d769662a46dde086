// Prints what openings, runs and showings answer to the cases of its input, in the words of the list of expected walks.
#![tactic(auto)]

mod calls;
mod current;
mod damaged;
mod percent;
mod pieces;
mod saying;
mod shown;
mod walks;

use crate::current::Current;
use input::read_so_far;
use std::io;
use testing::cases::{Cases, each_case};
use testing::unfailing::Unfailing;

// Answers a case by the first letter of its kind. An empty line is printed.
fn answer(
    rt: &impl Print,
    kind: u8,
    cases: &mut Cases<'_>,
    current: &mut Current,
) -> io::Result<()> {
    match kind {
        b'a' => current.go_on(cases),
        b'c' => percent::cap(rt, cases)?,
        b'd' => damaged::damaged(rt, cases, current)?,
        b'e' => damaged::equal(rt, cases, current)?,
        b'f' => *current = Current::fresh(cases),
        b'i' => calls::into(rt, cases, current)?,
        b'l' => calls::list(rt, cases, current)?,
        b'm' => pieces::misuse(rt, current)?,
        b'o' => calls::open(rt, cases)?,
        b'p' => damaged::put(cases, current),
        b'r' => pieces::run(rt, cases, current)?,
        b's' => shown::say_search(rt, current)?,
        b't' => saying::text(rt, cases)?,
        b'w' => walks::walk(rt, cases)?,
        b'\n' => println!(rt)?,
        _ => {}
    }
    Ok(())
}

// Reads the cases and answers each of them in turn.
fn main(rt: HostRuntime) -> io::Result<()> {
    let mut page = [0u8; 65536];
    let len = read_so_far(&mut rt.reader(), &mut page);
    let out = Unfailing(&rt);
    let mut current = Current::fresh(&mut Cases { text: &page, at: 0 });
    each_case(&page, len, |kind, cases| {
        answer(&out, kind, cases, &mut current)
    })
}
