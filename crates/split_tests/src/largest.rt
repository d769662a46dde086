// A 300 by 300 pattern with 4,000 nonzeros: its text answered, and the split read back from the answer.
use crate::asking::say_name;
use answering::splitting::answer;
use answering::{INPUT_ROOM, OUTPUT_ROOM};
use model::Part;
use model::limits::{LIST_ROOM, PART_ROOM};
use pattern::measures::{load, volume};
use pattern::reading::put_entry;
use scanning::lines::line_next;
use std::io;
use testing::Kind;
use testing::cases::Cases;
use testing::comparing::same_count;
use testing::laying::{first, lay};
use texts::read::read;
use writing::Figures;
use writing::write::write;

// The figures of the text that is read.
const FIGURES: Figures = Figures {
    volume: 0,
    cap0: 4000,
    cap1: 4000,
    rest: 0,
    tries: 0,
    floor: 0,
    complete: 0,
};

// Nonzero t stands in the cell at 22.505 × t, counted row by row: every row and every column has some.
fn fill(list: &mut [u8]) {
    for t in 0..4000 {
        let cell = t * 22505 / 1000;
        put_entry(list, t, (cell / 300) as u16, (cell % 300) as u16);
    }
}

// An input laid out in a page: a first line, and the pattern's text with every nonzero in part 0. Gives its length.
fn lay_input(line: &[u8], list: &[u8], page: &mut [u8]) -> usize {
    let mut text = [0u8; OUTPUT_ROOM];
    let parts = [0u8; PART_ROOM];
    let written = write(300, 300, 4000, list, &parts, FIGURES, &mut text);
    let Ok(len) = written else {
        return 0;
    };
    let from = lay(page, 0, line);
    lay(page, from, first(&text, len as usize))
}

// First line, comment and size line of a text, and the text's length.
fn say_head(rt: &impl Print, text: &[u8]) -> io::Result<()> {
    let comment = line_next(text, 0);
    let sizes = line_next(text, comment);
    let entries = line_next(text, sizes);
    rt.write_all(first(text, entries))?;
    let len = text.len();
    print!(rt; "length {len}")
}

// The volume of a split of the pattern, and the loads of both parts.
fn say_measures(rt: &impl Print, list: &[u8], parts: &[u8]) -> io::Result<()> {
    let Ok(cut) = volume(300, 300, 4000, list, parts) else {
        return Ok(());
    };
    let Ok(zero) = load(300, 300, 4000, list, parts, Part::Zero) else {
        return Ok(());
    };
    let Ok(one) = load(300, 300, 4000, list, parts, Part::One) else {
        return Ok(());
    };
    print!(rt; ", volume {cut}, load of part 0 {zero}, of part 1 {one}")
}

// How many bytes of the list that is read back from a text are the same as these, and the measures of its split.
fn say_back(rt: &impl Print, text: &[u8], list: &[u8]) -> io::Result<()> {
    let mut list_back = [9u8; LIST_ROOM];
    let mut parts = [9u8; PART_ROOM];
    let _ = read(text, &mut list_back, &mut parts);
    let same = same_count(list, &list_back);
    print!(rt; ", same bytes of the list {same}")?;
    say_measures(rt, list, &parts)?;
    println!(rt)
}

// The pattern answered after a first line.
fn answer_after(rt: &impl Print, line: &[u8]) -> io::Result<()> {
    let mut list = [9u8; LIST_ROOM];
    let mut page = [0u8; INPUT_ROOM];
    let mut out = [0u8; OUTPUT_ROOM];
    fill(&mut list);
    let size = lay_input(line, &list, &mut page);
    let len = answer(first(&page, size), &mut out);
    let text = first(&out, len);
    say_head(rt, text)?;
    say_back(rt, text, &list)
}

// The first line of the input.
pub(crate) fn largest_case(rt: &impl Print, cases: &mut Cases<'_>) -> io::Result<()> {
    let mut page = [0u8; 64];
    say_name(rt, cases)?;
    let len = cases.field(Kind::Text, &mut page);
    answer_after(rt, first(&page, len))
}
