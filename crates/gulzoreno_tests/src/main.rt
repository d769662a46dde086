// Calls the C function on the cases of the input, and prints its answer and every byte of both output slices. Before each call every byte
// of them is 7.
#![tactic(auto)]

mod calling;
mod lending;

use input::read_so_far;
use std::io;
use testing::cases::{Cases, each_case};
use testing::unfailing::Unfailing;

// Answers a case, on a line of its own. A line that is no call is passed over.
fn answer(rt: &impl Print, kind: u8, cases: &mut Cases<'_>) -> io::Result<()> {
    match kind {
        b'c' => calling::call(rt, cases),
        _ => Ok(()),
    }
}

// Reads the cases, and answers each of them in turn.
fn main(rt: HostRuntime) -> io::Result<()> {
    let mut page = [0u8; 8192];
    let len = read_so_far(&mut rt.reader(), &mut page);
    let out = Unfailing(&rt);
    each_case(&page, len, |kind, cases| answer(&out, kind, cases))
}
