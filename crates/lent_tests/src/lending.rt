// A search lent to a run and to a try.
ghost use Rattle.std.specs.Prelude.{◌≡◌, take};
ghost use Rattle.model.specs.Calls.{run_call};

use model::{Ran, Search};
use testing::patterns::Pattern;

// What a run and a try after it answer, and the search after each.
#[derive(Clone, Copy)]
pub struct Lent {
    pub ran: Ran,
    pub tried: Ran,
}

// Lends a search to a run, and then to a try.
pub(crate) fn lend(mut search: Search, pattern: &Pattern, budget: u64) -> Lent
    ensures { (result.ran ≡ run_call search pattern.now.m pattern.now.n pattern.now.nonzeros (take pattern.now.len pattern.now.room) budget)
        × (result.tried ≡ run_call result.ran.search pattern.now.m pattern.now.n pattern.now.nonzeros (take pattern.now.len pattern.now.room) 1) }
{
    let Pattern { m, n, nonzeros, .. } = *pattern;
    let list = pattern.list();
    let ran = Ran {
        answer: lent::run(&mut search, m, n, nonzeros, list, budget),
        search,
    };
    let tried = Ran {
        answer: lent::try_once(&mut search, m, n, nonzeros, list),
        search,
    };
    Lent { ran, tried }
}

// The same run by value, and the try after it.
pub(crate) fn run_beside(search: Search, pattern: &Pattern, budget: u64) -> Lent {
    let Pattern { m, n, nonzeros, .. } = *pattern;
    let list = pattern.list();
    let ran = search::run(search, m, n, nonzeros, list, budget);
    let tried = search::run(ran.search, m, n, nonzeros, list, 1);
    Lent { ran, tried }
}
