// The search: opening, run and showing.
// Kept: numbers and list are as a caller hands them in, of any size, of which the checks refuse some: the signatures that callers have stay.
#![tactic(auto)]

ghost use Rattle.std.specs.Prelude.{◌≡◌};
ghost use Rattle.model.specs.Split.{caps_of};
ghost use Rattle.model.specs.Calls.{open_call, run_call, show_call, show_parts, open_reply, run_reply, show_reply, open_replies, run_replies, show_replies};

use model::{Caps, Ran, Refusal, Search, Shown};
use pattern::checks::open_verdict;
use pattern::matrix::Matrix;
use running::presenting::show_search;
use running::run_search;
use state::holding::fresh_search;
use state::lines::line_total;

/// Opens a search of a pattern under cap 0 and cap 1. Refused with 4, 9, 17, 5 and 10 for the list, then with 11 for a cap outside its range
/// and with 12 where no split can meet both. A refused opening has no search: `state::holding::no_search` is the one with 0 in every field.
#[tactic(auto, unfolding(model::specs::Calls::open_call))]
pub fn open(
    m: u64,
    n: u64,
    nonzeros: u64,
    list: &[u8],
    cap0: u64,
    cap1: u64,
) -> Result<Search, Refusal>
    ensures answer { result ≡ open_call m n nonzeros list.now (caps_of cap0 cap1) }
    ensures reply { open_reply result ≡ open_replies m n nonzeros list.now (caps_of cap0 cap1) }
{
    let caps = Caps { cap0, cap1 };
    open_verdict(m, n, nonzeros, list, caps)?;
    let matrix = Matrix {
        m: m as u16,
        n: n as u16,
        nonzeros: nonzeros as u16,
        list,
    };
    Ok(fresh_search(m, n, nonzeros, caps, line_total(&matrix)))
}

/// Makes a budget of tries, or fewer only because the search became complete. Refused for the list, then with 14 for a search that is no state
/// of this pattern, then with 13 for a budget over its range; a refused run hands back the search that it was given.
pub fn run(search: Search, m: u64, n: u64, nonzeros: u64, list: &[u8], budget: u64) -> Ran
    ensures answer { result ≡ run_call search m n nonzeros list.now budget }
    ensures reply { run_reply result.answer ≡ run_replies search m n nonzeros list.now budget }
{
    run_search(search, m, n, nonzeros, list, budget)
}

/// Shows the split of the best marking in the parts, with its volume and the floor, or "none yet" and the floor. Refused for the list, then
/// with 14, then with 9 for too few parts; a refusal and "none yet" leave every byte of the parts.
pub fn show(
    search: Search,
    m: u64,
    n: u64,
    nonzeros: u64,
    list: &[u8],
    parts: &mut [u8],
) -> Result<Shown, Refusal>
    ensures answer { result ≡ show_call search m n nonzeros list.now parts.old }
    ensures parts { parts.new ≡ show_parts search m n nonzeros list.now parts.old }
    ensures reply { show_reply result ≡ show_replies search m n nonzeros list.now parts.old }
{
    show_search(search, m, n, nonzeros, list, parts)
}
