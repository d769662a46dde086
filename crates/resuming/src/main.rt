// Runs a search in pieces and shows it, as often as the input says: the time of a showing and what a run costs beside its tries are measured by
// this program. The input is a pattern, a line with rows, columns, nonzeros, cap 0, cap 1 and cells, and a line with five numbers: tries, rounds,
// runs, budget and showings. The tries are made first, in one run; then each round makes so many runs of that budget from the search after them;
// and then the search is shown.
#![tactic(auto)]

mod order;
mod repeating;

use crate::order::Order;
use crate::repeating::Showings;
use input::read_so_far;
use model::{Search, Shown};
use std::io;
use testing::cases::Cases;
use testing::laying::first;
use testing::saying::say_refused;
use testing::unfailing::Unfailing;

// What the last showing answered, and the sum of all answers.
fn say_showings(rt: &impl Print, showings: Showings) -> io::Result<()> {
    match showings.last {
        Ok(Shown::Split { volume, floor }) => print!(rt; " volume {volume} floor {floor}")?,
        Ok(Shown::NoneYet { floor }) => print!(rt; " none yet floor {floor}")?,
        Err(refusal) => say_refused(rt, refusal),
    }
    print!(rt; " sum {}", showings.sum)
}

// Runs and shows a search, and prints what it came to.
fn resume(rt: &impl Print, order: &Order, search: Search) -> io::Result<()> {
    let begun = order.run(search, order.tries);
    let after = order.run_rounds(begun);
    let showings = order.show(after);
    let (tries, looks, best) = (after.tries, after.looks, after.best_count);
    let state = if after.complete {
        "complete"
    } else {
        "stopped"
    };
    print!(rt; "tries {tries} looks {looks} best {best} {state}")?;
    if 0 < order.showings {
        say_showings(rt, showings)?;
    }
    println!(rt)
}

// Opens the search of an order, and goes on with it.
fn answer(rt: &impl Print, order: &Order) -> io::Result<()> {
    match order.open() {
        Ok(search) => resume(rt, order, search),
        Err(refusal) => {
            print!(rt; "open")?;
            say_refused(rt, refusal);
            println!(rt)
        }
    }
}

// Reads the pattern and the numbers.
fn main(rt: HostRuntime) -> io::Result<()> {
    let mut page = [0u8; 65536];
    let len = read_so_far(&mut rt.reader(), &mut page);
    let out = Unfailing(&rt);
    let order = Order::read(&mut Cases {
        text: first(&page, len),
        at: 0,
    });
    answer(&out, &order)
}
