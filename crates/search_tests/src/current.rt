// The search that the cases go on with.
use model::limits::{LIST_ROOM, PART_ROOM, SIDE_ROOM};
use model::{Caps, Ran, Refusal, Search};
use pattern::reading::put_entry;
use state::holding::no_search;
use testing::cases::Cases;
use testing::patterns::Pattern;

// A pattern and its caps; whether its opening was accepted, and its search.
#[derive(Clone, Copy)]
pub struct Current {
    pub pattern: Pattern,
    pub caps: Caps,
    pub verdict: Result<(), Refusal>,
    pub search: Search,
}

// Lays out the most nonzeros in a list, row by row in the longest rows.
fn lay_rows(list: &mut [u8]) {
    for t in 0..PART_ROOM {
        put_entry(
            list,
            t as u32,
            (t / SIDE_ROOM) as u16,
            (t % SIDE_ROOM) as u16,
        );
    }
}

// Lays out the list of a pattern, of which the words `row by row` stand for the most nonzeros.
fn read_cells(cases: &mut Cases<'_>, pattern: &mut Pattern) {
    let first = cases.letter();
    cases.cells(pattern);
    if first == b'r' {
        lay_rows(&mut pattern.room);
        pattern.len = LIST_ROOM;
    }
}

impl Current {
    // A fresh search: rows, columns, nonzeros, cap 0, cap 1 and cells.
    pub(crate) fn fresh(cases: &mut Cases<'_>) -> Current {
        let mut pattern = cases.sizes();
        let caps = cases.caps();
        read_cells(cases, &mut pattern);
        let opened = search::open(
            pattern.m,
            pattern.n,
            pattern.nonzeros,
            pattern.list(),
            caps.cap0,
            caps.cap1,
        );
        let (verdict, search) = match opened {
            Ok(search) => (Ok(()), search),
            Err(refusal) => (Err(refusal), no_search()),
        };
        Current {
            pattern,
            caps,
            verdict,
            search,
        }
    }

    // What a run answers.
    pub(crate) fn ran(&self, budget: u64) -> Ran {
        let pattern = &self.pattern;
        search::run(
            self.search,
            pattern.m,
            pattern.n,
            pattern.nonzeros,
            pattern.list(),
            budget,
        )
    }

    // Goes on with the search after so many tries.
    pub(crate) fn run(&mut self, budget: u64) {
        self.search = self.ran(budget).search;
    }

    // The same, with the tries that a field gives.
    pub(crate) fn go_on(&mut self, cases: &mut Cases<'_>) {
        self.run(cases.number());
    }
}
