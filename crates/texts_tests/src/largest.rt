// The most nonzeros written and read back.
use crate::reading::say_reading;
use crate::saying::say_written;
use crate::writings::{SAMPLE_FIGURES, len_of};
use model::limits::{LIST_ROOM, PART_ROOM};
use pattern::reading::{put, put_entry};
use std::io;
use testing::comparing::same_count;
use testing::laying::first;
use writing::write::write;

// 4,000 nonzeros of a 300 by 300 pattern: rows 201 to 300 with columns 105, 110, .., 300, nonzeros of odd number in part 1.
fn fill(list: &mut [u8], parts: &mut [u8]) {
    for t in 0..4000 {
        put_entry(list, t, (200 + t / 40) as u16, (104 + 5 * (t % 40)) as u16);
        put(parts, t as usize, (t % 2) as u8);
    }
}

// The pattern written, and the length of its text.
fn write_full(rt: &impl Print, list: &[u8], parts: &[u8], out: &mut [u8]) -> io::Result<usize> {
    let answer = write(300, 300, 4000, list, parts, SAMPLE_FIGURES, out);
    print!(rt; "4000 nonzeros")?;
    say_written(rt, answer)?;
    println!(rt)?;
    Ok(len_of(answer))
}

// A text read, and how many bytes of list and parts are the same as these.
fn compare(rt: &impl Print, text: &[u8], list: &[u8], parts: &[u8]) -> io::Result<()> {
    let mut list_back = [9u8; LIST_ROOM];
    let mut parts_back = [9u8; PART_ROOM];
    print!(rt; "4000 nonzeros read back")?;
    say_reading(rt, text, &mut list_back, &mut parts_back)?;
    let listed = same_count(list, &list_back);
    let parted = same_count(parts, &parts_back);
    println!(rt; ", same bytes of the list {listed}, of the parts {parted}")
}

// The pattern written and read back.
pub(crate) fn largest(rt: &impl Print) -> io::Result<()> {
    let mut list = [9u8; LIST_ROOM];
    let mut parts = [9u8; PART_ROOM];
    let mut out = [9u8; 65536];
    fill(&mut list, &mut parts);
    let len = write_full(rt, &list, &parts, &mut out)?;
    compare(rt, first(&out, len), &list, &parts)
}
