// Runs and showings, each so often.
use crate::order::Order;
use model::limits::PART_ROOM;
use model::{Refusal, Search, Shown};

// What the last of some showings answered, and the sum of what all of them did, of which six digits are kept.
#[derive(Clone, Copy)]
pub(crate) struct Showings {
    pub last: Result<Shown, Refusal>,
    pub sum: u64,
}

// What a showing answers, as one number.
fn number_of(answer: Result<Shown, Refusal>) -> u64 {
    match answer {
        Ok(Shown::Split { volume, floor }) => volume % 1000 + floor % 1000,
        Ok(Shown::NoneYet { floor }) => floor % 1000,
        Err(_) => 0,
    }
}

impl Order {
    // The search after a run.
    pub(crate) fn run(&self, search: Search, budget: u64) -> Search {
        let pattern = &self.pattern;
        search::run(
            search,
            pattern.m,
            pattern.n,
            pattern.nonzeros,
            pattern.list(),
            budget,
        )
        .search
    }

    // The search after the runs of a round, each from the search that the one before left.
    fn run_round(&self, search: Search) -> Search {
        let mut after = search;
        for _ in 0..self.runs {
            after = self.run(after, self.budget);
        }
        after
    }

    // The search after a round, of which so many are made from the same search.
    pub(crate) fn run_rounds(&self, search: Search) -> Search {
        let mut after = search;
        for _ in 0..self.rounds {
            after = self.run_round(search);
        }
        after
    }

    // A search shown so often.
    pub(crate) fn show(&self, search: Search) -> Showings {
        let pattern = &self.pattern;
        let mut parts = [0u8; PART_ROOM];
        let mut last = Ok(Shown::NoneYet { floor: 0 });
        let mut sum: u64 = 0;
        for _ in 0..self.showings {
            last = search::show(
                search,
                pattern.m,
                pattern.n,
                pattern.nonzeros,
                pattern.list(),
                &mut parts,
            );
            sum = sum % 1_000_000 + number_of(last) % 1_000_000;
        }
        Showings { last, sum }
    }
}
