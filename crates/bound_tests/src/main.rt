// Prints what an evaluation by the functions that a run judges by says of markings of several patterns, in the words of the list of expected
// bounds, with looks. Its input has the cases.
#![tactic(auto)]

use input::read_so_far;
use marking::marks::unmarked_lines;
use model::Caps;
use running::evaluating::{Evaluation, evaluate_lines};
use std::io;
use testing::Kind;
use testing::cases::{Cases, each_case};
use testing::laying::{first, lay_marks};
use testing::patterns::Pattern;
use testing::unfailing::Unfailing;
use trail::MARK_ROOM;

// A count that no bound reaches, so that the least of it and a bound is the bound.
const ABOVE_BOUNDS: u64 = 1_000_000;

// The bound of a valid marking, with its parts and its looks.
fn say_bound(rt: &impl Print, e: Evaluation) -> io::Result<()> {
    print!(rt;
        " L1 {} L2 {} L3 {} L4 {}",
        e.cut, e.torn, e.struck, e.matched
    )?;
    print!(rt; " bound {} looks {}", e.least, e.looks)
}

// An evaluation, on a line of its own.
fn say_evaluation(rt: &impl Print, e: Evaluation) -> io::Result<()> {
    print!(rt; " valid {} D0 {} D1 {}", u8::from(e.valid), e.zero, e.one)?;
    if e.valid {
        say_bound(rt, e)?;
    }
    println!(rt)
}

// A pattern and its caps as a case gives them.
#[derive(Clone, Copy)]
struct Given {
    pattern: Pattern,
    caps: Caps,
}

impl Given {
    // The pattern of a case, after its kind.
    fn read(cases: &mut Cases<'_>) -> Given {
        let mut pattern = cases.sizes();
        let caps = cases.caps();
        cases.cells(&mut pattern);
        Given { pattern, caps }
    }

    // The evaluation of a marking that is given by letters.
    fn evaluate(&self, letters: &[u8]) -> Evaluation {
        let pattern = &self.pattern;
        let mut marks = unmarked_lines();
        lay_marks(&mut marks, letters);
        evaluate_lines(
            pattern.m,
            pattern.n,
            pattern.nonzeros,
            pattern.list(),
            self.caps,
            &marks,
            ABOVE_BOUNDS,
        )
    }
}

// A marking of a pattern.
fn say_marking(rt: &impl Print, cases: &mut Cases<'_>, given: &Given) -> io::Result<()> {
    let mut page = [0u8; MARK_ROOM];
    let len = cases.field(Kind::Text, &mut page);
    let letters = first(&page, len);
    rt.write_all(letters)?;
    say_evaluation(rt, given.evaluate(letters))
}

// Answers a case by the first letter of its kind.
fn answer(rt: &impl Print, kind: u8, cases: &mut Cases<'_>, given: &mut Given) -> io::Result<()> {
    match kind {
        b'p' => *given = Given::read(cases),
        b'm' => say_marking(rt, cases, given)?,
        _ => {}
    }
    Ok(())
}

// Reads the cases and answers each of them in turn.
fn main(rt: HostRuntime) -> io::Result<()> {
    let mut page = [0u8; 16384];
    let len = read_so_far(&mut rt.reader(), &mut page);
    let out = Unfailing(&rt);
    let mut start = Cases { text: &page, at: 0 };
    start.kind();
    let mut given = Given::read(&mut start);
    each_case(&page, len, |kind, cases| {
        answer(&out, kind, cases, &mut given)
    })
}
