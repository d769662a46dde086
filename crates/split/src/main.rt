// Splits the pattern of a text: standard input to standard output.
#![tactic(auto)]

use answering::printing::{no_input, printed};
use input::read_so_far;

// Reads, answers and prints. A reading that fails ends the input, and what printing fails on is passed over: the answer stands on standard output
// alone, and where that takes none there is nobody to tell.
fn main(rt: HostRuntime) {
    let mut page = no_input();
    let count = read_so_far(&mut rt.reader(), &mut page);
    let answer = printed(page, count);
    let _ = rt.write_all(&answer.bytes[..answer.len]);
}
