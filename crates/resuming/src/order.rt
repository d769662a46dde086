// What the input asks for.
use model::{Caps, Refusal, Search};
use testing::cases::Cases;
use testing::patterns::Pattern;

// A pattern and its caps; the tries that are made first; how many rounds there are, the runs of a round and the budget of each; and how many
// showings.
#[derive(Clone, Copy)]
pub(crate) struct Order {
    pub pattern: Pattern,
    pub caps: Caps,
    pub tries: u64,
    pub rounds: u64,
    pub runs: u64,
    pub budget: u64,
    pub showings: u64,
}

impl Order {
    // The order of an input.
    pub(crate) fn read(cases: &mut Cases<'_>) -> Order {
        let mut pattern = cases.sizes();
        let caps = cases.caps();
        cases.cells(&mut pattern);
        Order {
            pattern,
            caps,
            tries: cases.number(),
            rounds: cases.number(),
            runs: cases.number(),
            budget: cases.number(),
            showings: cases.number(),
        }
    }

    // What the opening of its search answers.
    pub(crate) fn open(&self) -> Result<Search, Refusal> {
        let pattern = &self.pattern;
        search::open(
            pattern.m,
            pattern.n,
            pattern.nonzeros,
            pattern.list(),
            self.caps.cap0,
            self.caps.cap1,
        )
    }
}
