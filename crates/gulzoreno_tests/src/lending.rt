// A call of the C function with the first bytes of two pages.
use gulzoreno::gulzoreno_bipartition;
use model::Caps;
use std::io;
use testing::patterns::Pattern;
use testing::saying::say_bytes;

// What a call is given.
#[derive(Clone, Copy)]
pub struct Call {
    pub pattern: Pattern,
    pub caps: Caps,
    pub budget: u64,
}

impl Call {
    // What the C function answers, and writes to both slices.
    fn make(&self, parts: &mut [u8], figures: &mut [u8]) -> u64 {
        let pattern = &self.pattern;
        gulzoreno_bipartition(
            pattern.m,
            pattern.n,
            pattern.nonzeros,
            pattern.list(),
            self.caps.cap0,
            self.caps.cap1,
            self.budget,
            parts,
            figures,
        )
    }
}

// An answer and every byte of both output slices, up to the line's end.
fn say_answer(rt: &impl Print, answer: u64, parts: &[u8], figures: &[u8]) -> io::Result<()> {
    print!(rt;
        ": answer {answer} number {} place {}",
        answer % 256,
        answer / 256
    )?;
    say_bytes(rt, " parts", parts);
    say_bytes(rt, " figures", figures);
    println!(rt)
}

// One call with room for so many parts, up to 22, and for so many bytes of figures, up to 33.
pub(crate) fn lend(
    rt: &impl Print,
    call: &Call,
    part_room: usize,
    figure_room: usize,
) -> io::Result<()> {
    let mut part_page = [7u8; 22];
    let mut figure_page = [7u8; 33];
    if part_room > 22 || figure_room > 33 {
        return Ok(());
    }
    let parts = &mut part_page[..part_room];
    let figures = &mut figure_page[..figure_room];
    let answer = call.make(parts, figures);
    say_answer(rt, answer, parts, figures)
}
