// Writes the split of a text anew with the largest figures, as often as the input says, and prints it once: the writer's time is measured by
// this program. The input is a line with a number of seven digits, and the text.
#![tactic(auto)]

use input::read_so_far;
use model::limits::{LIST_ROOM, PART_ROOM};
use std::io;
use testing::cases::Cases;
use testing::laying::first;
use testing::unfailing::Unfailing;
use texts::TextRead;
use texts::read::read;
use writing::Figures;
use writing::write::write;

// The largest figures.
const FIGURES: Figures = Figures {
    volume: u64::MAX,
    cap0: u64::MAX,
    cap1: u64::MAX,
    rest: u64::MAX,
    tries: u64::MAX,
    floor: u64::MAX,
    complete: 1,
};

// A split: its pattern's numbers and list, and the parts of its nonzeros.
#[derive(Clone, Copy)]
struct Split<'a> {
    m: u64,
    n: u64,
    nonzeros: u64,
    list: &'a [u8],
    parts: &'a [u8],
}

impl Split<'_> {
    // The split written with the largest figures, and the length of its text.
    fn write(&self, out: &mut [u8]) -> usize {
        let answer = write(
            self.m,
            self.n,
            self.nonzeros,
            self.list,
            self.parts,
            FIGURES,
            out,
        );
        match answer {
            Ok(len) => len as usize,
            Err(_) => 0,
        }
    }

    // The same so often.
    fn write_often(&self, times: u64, out: &mut [u8]) -> usize {
        let mut len: usize = 0;
        for _ in 0..times {
            len = self.write(out);
        }
        len
    }
}

// A text read, written so often, and printed.
fn print_written(rt: &impl Print, times: u64, text: &[u8]) -> io::Result<()> {
    let mut list = [0u8; LIST_ROOM];
    let mut parts = [0u8; PART_ROOM];
    let mut out = [0u8; 65536];
    match read(text, &mut list, &mut parts) {
        Ok(TextRead { m, n, nonzeros, .. }) => {
            let split = Split {
                m,
                n,
                nonzeros,
                list: &list,
                parts: &parts,
            };
            let len = split.write_often(times, &mut out);
            rt.write_all(first(&out, len))
        }
        Err(_) => Ok(()),
    }
}

// Reads the number and the text.
fn main(rt: HostRuntime) -> io::Result<()> {
    let mut line = [0u8; 8];
    let mut text = [0u8; 65536];
    read_so_far(&mut rt.reader(), &mut line);
    let len = read_so_far(&mut rt.reader(), &mut text);
    let out = Unfailing(&rt);
    let times = Cases { text: &line, at: 0 }.number();
    print_written(&out, times, first(&text, len))
}
