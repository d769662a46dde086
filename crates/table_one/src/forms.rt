// Two forms of a pattern, each answered as the program `split` does, with a budget of 25,000, which is enough for karate.
use crate::figures::print_figures;
use crate::files::{PAGE_ROOM, read_named};
use answering::OUTPUT_ROOM;
use answering::splitting::answer;
use std::io;
use std::rt::Files;

// Answers the file of a name after the first line that orders percentage and budget, which takes 25 bytes.
fn answer_named(rt: &impl Files, name: &str, out: &mut [u8]) -> io::Result<()> {
    let mut page = [0u8; PAGE_ROOM];
    page[..25].copy_from_slice(b"percent 3 budget 0025000\n");
    let count = read_named(rt, name, &mut page[25..])?;
    if count < 8000 {
        answer(&page[..count + 25], out);
    }
    Ok(())
}

// Prints the names of two forms of a pattern, and the figures of their split where both give the same bytes. A reading that fails is an error, and
// what printing fails on is passed over.
pub(crate) fn print_forms(rt: &(impl Files + Print), general: &str, other: &str) -> io::Result<()> {
    let mut first = [0u8; OUTPUT_ROOM];
    let mut second = [0u8; OUTPUT_ROOM];
    answer_named(rt, general, &mut first)?;
    answer_named(rt, other, &mut second)?;
    let _ = print!(rt; "{general} and {other}");
    if first == second {
        let _ = print!(rt; ", the same: ");
        print_figures(rt, &second);
    } else {
        let _ = println!(rt; ", not the same");
    }
    Ok(())
}
