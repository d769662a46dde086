// A search that is lent by `&mut`: a run, and a run of one try.
// Kept: numbers and list are as a caller hands them in, of any size, of which the checks refuse some: the signatures that callers have stay.
#![tactic(auto)]

ghost use Rattle.std.specs.Prelude.{◌≡◌};
ghost use Rattle.model.specs.Calls.{run_call, run_reply, run_replies};

use model::{Ended, Refusal, Search};

/// Makes a budget of tries on a search that is lent, or fewer only because it became complete. A refusal leaves the search as it was.
pub fn run(
    search: &mut Search,
    m: u64,
    n: u64,
    nonzeros: u64,
    list: &[u8],
    budget: u64,
) -> Result<Ended, Refusal>
    ensures { (result ≡ (run_call search.old m n nonzeros list.now budget).answer)
        × (search.new ≡ (run_call search.old m n nonzeros list.now budget).search)
        × (run_reply result ≡ run_replies search.old m n nonzeros list.now budget) }
{
    let ran = search::run(*search, m, n, nonzeros, list, budget);
    *search = ran.search;
    ran.answer
}

/// Makes one try on a search that is lent, or none if it is complete. A refusal leaves the search as it was.
pub fn try_once(
    search: &mut Search,
    m: u64,
    n: u64,
    nonzeros: u64,
    list: &[u8],
) -> Result<Ended, Refusal>
    ensures { (result ≡ (run_call search.old m n nonzeros list.now 1).answer)
        × (search.new ≡ (run_call search.old m n nonzeros list.now 1).search)
        × (run_reply result ≡ run_replies search.old m n nonzeros list.now 1) }
{
    run(search, m, n, nonzeros, list, 1)
}
