// A pattern at 3 percent, run on one search until that is complete or a number of runs is made.
use crate::figures::print_figures;
use crate::files::{PAGE_ROOM, read_named};
use answering::OUTPUT_ROOM;
use model::limits::{BUDGET_LIMIT, LIST_ROOM, PART_ROOM};
use model::{Search, Shown};
use pattern::cap::cap_from_percent;
use std::io;
use std::rt::Files;
use texts::TextRead;
use texts::read::read;
use writing::Figures;
use writing::write::lines::{put_none, put_refused};
use writing::write::write;

// A pattern as its text gives it.
#[derive(Clone, Copy)]
struct Pattern<'a> {
    m: u64,
    n: u64,
    nonzeros: u64,
    list: &'a [u8],
}

impl Pattern<'_> {
    // Makes runs with the largest budget of a call until the search is complete, and at most so many.
    fn run_on(&self, mut search: Search, runs: u64) -> Search {
        for _ in 0..runs {
            if search.complete {
                break;
            }
            search = search::run(
                search,
                self.m,
                self.n,
                self.nonzeros,
                self.list,
                BUDGET_LIMIT,
            )
            .search;
        }
        search
    }

    // Writes what is shown of a search: the text of its split, or "none yet".
    fn put_shown(&self, search: &Search, rest: u64, out: &mut [u8]) {
        let mut parts = [0u8; PART_ROOM];
        match search::show(
            *search,
            self.m,
            self.n,
            self.nonzeros,
            self.list,
            &mut parts,
        ) {
            Ok(Shown::Split { volume, floor }) => {
                let figures = Figures {
                    volume,
                    cap0: search.cap0,
                    cap1: search.cap1,
                    rest,
                    tries: search.tries,
                    floor,
                    complete: u64::from(search.complete),
                };
                let _ = write(
                    self.m,
                    self.n,
                    self.nonzeros,
                    self.list,
                    &parts,
                    figures,
                    out,
                );
            }
            Ok(Shown::NoneYet { floor }) => {
                put_none(out, search.cap0, search.cap1, rest, search.tries, floor);
            }
            Err(refusal) => {
                put_refused(out, refusal.word, refusal.place);
            }
        }
    }

    // Opens a search with this cap for both parts, makes the runs and writes what is shown.
    fn put_opened(&self, cap: u64, rest: u64, runs: u64, out: &mut [u8]) {
        match search::open(self.m, self.n, self.nonzeros, self.list, cap, cap) {
            Ok(opened) => {
                let search = self.run_on(opened, runs);
                self.put_shown(&search, rest, out);
            }
            Err(refusal) => {
                put_refused(out, refusal.word, refusal.place);
            }
        }
    }

    // Splits the pattern at 3 percent.
    fn put_split(&self, runs: u64, out: &mut [u8]) {
        match cap_from_percent(self.nonzeros, 3) {
            Ok(capped) => self.put_opened(capped.cap, capped.rest, runs, out),
            Err(refusal) => {
                put_refused(out, refusal.word, refusal.place);
            }
        }
    }
}

// Splits the pattern of a text.
fn put_text(text: &[u8], runs: u64, out: &mut [u8]) {
    let mut list = [0u8; LIST_ROOM];
    let mut parts = [0u8; PART_ROOM];
    match read(text, &mut list, &mut parts) {
        Ok(TextRead { m, n, nonzeros, .. }) => {
            let pattern = Pattern {
                m,
                n,
                nonzeros,
                list: &list,
            };
            pattern.put_split(runs, out);
        }
        Err(refusal) => {
            put_refused(out, refusal.word, refusal.place);
        }
    }
}

// Prints the name of a file and the figures of its split after at most so many runs. A reading that fails is an error, and what printing fails on
// is passed over.
pub(crate) fn print_file(rt: &(impl Files + Print), name: &str, runs: u64) -> io::Result<()> {
    let mut page = [0u8; PAGE_ROOM];
    let mut out = [0u8; OUTPUT_ROOM];
    let count = read_named(rt, name, &mut page)?;
    put_text(&page[..count], runs, &mut out);
    let _ = print!(rt; "{name}: ");
    print_figures(rt, &out);
    Ok(())
}
