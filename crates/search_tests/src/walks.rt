// The walk of a pattern, shown after 0, 1, 3, 7, 20 and 60 tries and where it is complete.
use crate::current::Current;
use crate::saying::say_sizes;
use crate::shown::say_search;
use std::io;
use testing::cases::Cases;
use testing::saying::say_field;

// The tries of each run of a walk.
const BUDGETS: [u64; 6] = [1, 2, 4, 13, 40, 1_000_000];

// The walk of a search from a fresh one on: after each run that begins with a search that is not complete it is shown.
fn walk_on(rt: &impl Print, current: &mut Current) -> io::Result<()> {
    for budget in BUDGETS {
        if current.search.complete {
            break;
        }
        current.run(budget);
        say_search(rt, current)?;
    }
    Ok(())
}

// The walk of a pattern, after its numbers and cells.
pub(crate) fn walk(rt: &impl Print, cases: &mut Cases<'_>) -> io::Result<()> {
    let mut cells = *cases;
    cells.sizes();
    cells.caps();
    let mut current = Current::fresh(cases);
    say_sizes(rt, "pattern", &current)?;
    print!(rt; "\n  ")?;
    say_field(rt, &mut cells);
    println!(rt)?;
    say_search(rt, &current)?;
    walk_on(rt, &mut current)?;
    println!(rt)
}
