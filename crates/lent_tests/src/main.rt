// Runs and tries on a search that is lent, each next to the same run by value, and prints whether answers and searches are the same. Prints
// volumes and loads of splits too, and their refusals. Its input has the cases.
#![tactic(auto)]

mod lending;
mod measuring;
mod stepping;

use input::read_so_far;
use model::Search;
use std::io;
use testing::cases::{Cases, each_case};
use testing::unfailing::Unfailing;

// Answers a case by the first letter of its kind.
fn answer(rt: &impl Print, kind: u8, cases: &mut Cases<'_>, search: &mut Search) -> io::Result<()> {
    match kind {
        b'd' => stepping::damaged(rt, search),
        b'f' => {
            *search = stepping::fresh();
            Ok(())
        }
        b'm' => measuring::measure_case(rt, cases),
        b's' => stepping::step_case(rt, cases, search),
        _ => Ok(()),
    }
}

// Reads the cases and answers each of them in turn.
fn main(rt: HostRuntime) -> io::Result<()> {
    let mut page = [0u8; 4096];
    let len = read_so_far(&mut rt.reader(), &mut page);
    let out = Unfailing(&rt);
    let mut search = stepping::fresh();
    each_case(&page, len, |kind, cases| {
        answer(&out, kind, cases, &mut search)
    })
}
