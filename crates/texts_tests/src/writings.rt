// Splits that are written.
use crate::reading::read_within;
use crate::saying::{is_kept, say_written};
use model::Refusal;
use std::io;
use testing::Kind;
use testing::cases::Cases;
use testing::laying::first;
use testing::saying::say_field;
use writing::Figures;
use writing::write::write;

// The figures of document 01's sample.
pub(crate) const SAMPLE_FIGURES: Figures = Figures {
    volume: 0,
    cap0: 1,
    cap1: 1,
    rest: 0,
    tries: 11,
    floor: 0,
    complete: 1,
};

// A split as a case gives it: the first bytes of list and parts are lent.
// Kept: rooms and lengths, as a field of a case is laid out in a page that is there: a Vec is no plainer.
#[derive(Clone, Copy)]
struct Split {
    m: u64,
    n: u64,
    nonzeros: u64,
    list: [u8; 16],
    listed: usize,
    parts: [u8; 4],
    parted: usize,
}

impl Split {
    // The split of a case.
    fn read(cases: &mut Cases<'_>) -> Split {
        let mut list = [0u8; 16];
        let mut parts = [0u8; 4];
        let m = cases.number();
        let n = cases.number();
        let nonzeros = cases.number();
        let listed = cases.list(&mut list);
        let parted = cases.field(Kind::Numbers, &mut parts);
        Split {
            m,
            n,
            nonzeros,
            list,
            listed,
            parts,
            parted,
        }
    }

    // The split written.
    fn write(&self, figures: Figures, out: &mut [u8]) -> Result<u64, Refusal> {
        let list = first(&self.list, self.listed);
        let parts = first(&self.parts, self.parted);
        write(self.m, self.n, self.nonzeros, list, parts, figures, out)
    }
}

// A split written to the first bytes of a page.
fn write_start(rt: &impl Print, split: &Split, room: usize, page: &mut [u8]) -> io::Result<()> {
    if room > page.len() {
        return Ok(());
    }
    say_written(rt, split.write(SAMPLE_FIGURES, &mut page[..room]))
}

// A split written to an output of a given length, at most 200 bytes, and which of its bytes stay.
pub(crate) fn write_case(rt: &impl Print, cases: &mut Cases<'_>) -> io::Result<()> {
    let mut out = [9u8; 200];
    say_field(rt, cases);
    let split = Split::read(cases);
    let room = cases.number();
    write_start(rt, &split, room as usize, &mut out)?;
    let output = if is_kept(&out) { "kept" } else { "written" };
    let past = if is_kept(&out[120..]) {
        "kept"
    } else {
        "changed"
    };
    println!(rt; ", output {output}, {past} from 120 on")
}

// The number of bytes written.
pub(crate) fn len_of(answer: Result<u64, Refusal>) -> usize {
    match answer {
        Ok(len) => len as usize,
        Err(_) => 0,
    }
}

// The text of a split with these figures, and the split that is read from it.
fn write_back(rt: &impl Print, split: &Split, figures: Figures) -> io::Result<()> {
    let mut out = [9u8; 256];
    let answer = split.write(figures, &mut out);
    let text = first(&out, len_of(answer));
    rt.write_all(text)?;
    print!(rt; "read back")?;
    read_within(rt, text, 16, 4)
}

// A split and its figures, written and read back.
pub(crate) fn back_case(rt: &impl Print, cases: &mut Cases<'_>) -> io::Result<()> {
    let split = Split::read(cases);
    let figures = Figures {
        volume: cases.number(),
        cap0: cases.number(),
        cap1: cases.number(),
        rest: cases.number(),
        tries: cases.number(),
        floor: cases.number(),
        complete: cases.number(),
    };
    write_back(rt, &split, figures)
}
