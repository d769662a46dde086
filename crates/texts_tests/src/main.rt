// Prints what reading and writing make of many texts, in the words of the list of expected answers. Its input has the cases.
#![tactic(auto)]

mod largest;
mod opened;
mod reading;
mod saying;
mod writings;

use input::read_so_far;
use std::io;
use testing::cases::{Cases, each_case};
use testing::unfailing::Unfailing;

// Answers a case by the first letter of its kind.
fn answer(rt: &impl Print, kind: u8, cases: &mut Cases<'_>) -> io::Result<()> {
    match kind {
        b'r' => reading::read_case(rt, cases),
        b'f' => reading::filled_case(rt, cases),
        b'w' => writings::write_case(rt, cases),
        b'b' => writings::back_case(rt, cases),
        b'o' => opened::opened_case(rt, cases),
        b'l' => largest::largest(rt),
        _ => Ok(()),
    }
}

// Reads the cases and answers each of them in turn.
fn main(rt: HostRuntime) -> io::Result<()> {
    let mut page = [0u8; 65536];
    let len = read_so_far(&mut rt.reader(), &mut page);
    let out = Unfailing(&rt);
    each_case(&page, len, |kind, cases| answer(&out, kind, cases))
}
