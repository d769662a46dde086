// Prints what the program answers to many inputs, byte by byte, what it leaves in outputs that are too short, and what is read back from its
// longest answers. Its own input has the cases.
#![tactic(auto)]

mod asking;
mod largest;
mod outputs;

use input::read_so_far;
use std::io;
use testing::cases::{Cases, each_case};
use testing::unfailing::Unfailing;

// Answers a case by the first letter of its kind.
fn answer(rt: &impl Print, kind: u8, cases: &mut Cases<'_>) -> io::Result<()> {
    match kind {
        b'a' => asking::answer_case(rt, cases),
        b'f' => asking::filled_case(rt, cases),
        b'l' => largest::largest_case(rt, cases),
        b'w' => outputs::within_case(rt, cases),
        _ => Ok(()),
    }
}

// Reads the cases and answers each of them in turn.
fn main(rt: HostRuntime) -> io::Result<()> {
    let mut page = [0u8; 65536];
    let len = read_so_far(&mut rt.reader(), &mut page);
    let out = Unfailing(&rt);
    each_case(&page, len, |kind, cases| answer(&out, kind, cases))
}
