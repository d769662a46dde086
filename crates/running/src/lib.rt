// A run: its list and its state checked, then so many tries of the walk, on counts that are kept while the trail grows and shrinks.
// Kept: numbers and list are as a caller hands them in, of any size, of which the checks refuse some: the signatures that callers have stay.
#![tactic(auto)]

ghost use Rattle.std.specs.Prelude.{◌≡◌, Ok};
ghost use Rattle.model.specs.Refusal.{◌then◌};
ghost use Rattle.model.specs.Pattern.{pattern_of};
ghost use Rattle.model.specs.State.{record_of, search_of};
ghost use Rattle.model.specs.Calls.{run_verdict, ended, ran_record, run_call};
ghost use Rattle.running.specs.Budget.{budget_by};

use crate::beginning::run_from;
use crate::tables::Ranked;
use model::limits::{BUDGET_LIMIT, TRIES_LIMIT};
use model::{Ended, Ran, Refusal, Search, Word};
use pattern::checks::{list_verdict, refuse_if};
use pattern::matrix::Matrix;
use state::checking::state_fine;
use state::holding::normal;

mod beginning;
mod counts;
mod deciding;
pub mod evaluating;
mod kept;
mod kinds;
mod marks;
pub mod presenting;
mod room;
mod tables;
mod tally;
mod trying;
mod walking;

// 13: over a call's range, or tries + budget over the limit.
fn budget_verdict(tries: u64, budget: u64) -> Result<(), Refusal>
    ensures { result ≡ budget_by tries budget }
{
    refuse_if(BUDGET_LIMIT < budget, Word::Budget, 0)?;
    refuse_if(TRIES_LIMIT < tries, Word::Budget, 0)?;
    refuse_if(TRIES_LIMIT < tries + budget, Word::Budget, 0)
}

// Complete, or stopped otherwise, with the looks since the fresh search.
fn ended_as(complete: bool, looks: u64) -> Ended
    ensures { result ≡ ended complete looks }
{
    if complete {
        Ended::Complete { looks }
    } else {
        Ended::Stopped { looks }
    }
}

// The search after a run, or what refuses it: its list, its state or its budget.
fn run_checked(
    search: Search,
    m: u64,
    n: u64,
    nonzeros: u64,
    list: &[u8],
    budget: u64,
) -> Result<Search, Refusal>
    ensures { result ≡ (run_verdict (record_of search) m n nonzeros list.now budget then Ok (search_of (ran_record (record_of search) (pattern_of m n nonzeros list.now) budget))) }
{
    list_verdict(m, n, nonzeros, list)?;
    let matrix = Matrix {
        m: m as u16,
        n: n as u16,
        nonzeros: nonzeros as u16,
        list,
    };
    let ranked = Ranked::of(&matrix);
    let fine = state_fine(search, &ranked.matrix, &ranked.places, ranked.full);
    refuse_if(!fine, Word::State, 0)?;
    budget_verdict(search.tries, budget)?;
    Ok(run_from(normal(search), &ranked, ranked.full, budget))
}

/// A run on any list: so many tries, or fewer only because the search became complete. A refused one hands back the search that was given.
pub fn run_search(search: Search, m: u64, n: u64, nonzeros: u64, list: &[u8], budget: u64) -> Ran
    ensures { result ≡ run_call search m n nonzeros list.now budget }
{
    match run_checked(search, m, n, nonzeros, list, budget) {
        Ok(after) => Ran {
            answer: Ok(ended_as(after.complete, after.looks)),
            search: after,
        },
        Err(refusal) => Ran {
            answer: Err(refusal),
            search,
        },
    }
}
