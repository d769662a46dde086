// The splitter for a host in C: one function with numbers and byte slices. It opens, runs once and shows.
// Kept: numbers and list are as a caller hands them in, of any size, of which the checks refuse some: the signatures that callers have stay.
#![tactic(auto)]

ghost use Rattle.std.specs.Prelude.{◌≡◌, ◌≤◌, Ok};
ghost use Rattle.model.specs.Limits.{nonzero_limit};
ghost use Rattle.model.specs.Pattern.{pattern_of};
ghost use Rattle.model.specs.Split.{caps_of};
ghost use Rattle.model.specs.Walk.{fresh_of};
ghost use Rattle.model.specs.State.{search_of};
ghost use Rattle.model.specs.Refusal.{refusal_code, ◌then◌};
ghost use Rattle.model.specs.Calls.{run_call, show_call, show_parts, show_code};
ghost use Rattle.gulzoreno.specs.Host.{output_verdict, host_verdict, figures_shown, bipartition_code, bipartition_parts, bipartition_figures};

use crate::figures::put_figures;
use model::limits::BUDGET_LIMIT;
use model::{Refusal, Search, Shown, Word};
use pattern::checks::refuse_if;

pub mod figures;

// A refusal as number + 256 × place; no place of a list is past the limit on nonzeros.
fn refusal_code(refusal: Refusal) -> u64
    requires { refusal.place ≤ nonzero_limit }
    ensures { result ≡ refusal_code refusal.word refusal.place }
{
    u64::from(refusal.word) + 256 * refusal.place
}

// The checks after the opening: the budget, then the output slices.
#[tactic(auto, using(crate::proofs::Answers::output_each))]
fn output_verdict(nonzeros: u64, budget: u64, parts: &[u8], figures: &[u8]) -> Result<(), Refusal>
    ensures { result ≡ output_verdict nonzeros budget parts.now figures.now }
{
    refuse_if(BUDGET_LIMIT < budget, Word::Budget, 0)?;
    refuse_if((parts.len() as u64) < nonzeros, Word::ShortBuffer, 0)?;
    refuse_if(figures.len() < 32, Word::ShortBuffer, 0)
}

// Opens the search, then checks the budget and the output slices.
#[tactic(auto, using(crate::proofs::Answers::unopened, crate::proofs::Answers::unfit, crate::proofs::Answers::opens))]
fn opened(
    m: u64,
    n: u64,
    nonzeros: u64,
    list: &[u8],
    cap0: u64,
    cap1: u64,
    budget: u64,
    parts: &[u8],
    figures: &[u8],
) -> Result<Search, Refusal>
    ensures { result ≡ (host_verdict m n nonzeros list.now (caps_of cap0 cap1) budget parts.now figures.now
        then Ok (search_of (fresh_of (pattern_of m n nonzeros list.now) (caps_of cap0 cap1)))) }
{
    let search = search::open(m, n, nonzeros, list, cap0, cap1)?;
    output_verdict(nonzeros, budget, parts, figures)?;
    Ok(search)
}

// Runs a search once and shows it: the split in the parts and its figures, or "none yet", or a refusal.
fn run_and_show(
    search: Search,
    m: u64,
    n: u64,
    nonzeros: u64,
    list: &[u8],
    budget: u64,
    parts: &mut [u8],
    figures: &mut [u8],
) -> u64
    ensures answer { result ≡ show_code (show_call (run_call search m n nonzeros list.now budget).search m n nonzeros list.now parts.old) }
    ensures parts { parts.new ≡ show_parts (run_call search m n nonzeros list.now budget).search m n nonzeros list.now parts.old }
    ensures figures { figures.new ≡ figures_shown (show_call (run_call search m n nonzeros list.now budget).search m n nonzeros list.now parts.old) (run_call search m n nonzeros list.now budget).search figures.old }
{
    let after = search::run(search, m, n, nonzeros, list, budget).search;
    match search::show(after, m, n, nonzeros, list, parts) {
        Ok(Shown::Split { volume, floor }) => {
            put_figures(figures, volume, after.tries, floor, after.complete);
            0
        }
        Ok(Shown::NoneYet { floor: _ }) => 255,
        Err(refusal) => refusal_code(refusal),
    }
}

/// Splits a pattern under cap 0 and cap 1 within a budget of tries. Answers 0 with the parts and the figures (volume, tries, floor, complete)
/// written, or 255 for "none yet", or a refusal as number + 256 × place; with the last two nothing is written.
pub fn gulzoreno_bipartition(
    m: u64,
    n: u64,
    nonzeros: u64,
    list: &[u8],
    cap0: u64,
    cap1: u64,
    budget: u64,
    parts: &mut [u8],
    figures: &mut [u8],
) -> u64
    ensures answer { result ≡ bipartition_code m n nonzeros list.now (caps_of cap0 cap1) budget parts.old figures.old }
    ensures parts { parts.new ≡ bipartition_parts m n nonzeros list.now (caps_of cap0 cap1) budget parts.old figures.old }
    ensures figures { figures.new ≡ bipartition_figures m n nonzeros list.now (caps_of cap0 cap1) budget parts.old figures.old }
{
    match opened(m, n, nonzeros, list, cap0, cap1, budget, parts, figures) {
        Ok(search) => run_and_show(search, m, n, nonzeros, list, budget, parts, figures),
        Err(refusal) => refusal_code(refusal),
    }
}
