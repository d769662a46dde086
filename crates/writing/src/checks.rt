// The checks of the writer, in the refusal table's order.
// Kept: numbers and list are as a caller hands them in, of any size, of which the checks refuse some: the signatures that callers have stay.
ghost use Rattle.std.specs.Prelude.{◌≡◌};
ghost use Rattle.model.specs.Refusal.{each_verdict};
ghost use Rattle.writing.specs.Writing.{nonzero_verdict, write_verdict};

use model::{Refusal, Word};
use pattern::checks::{entry_verdict, refuse_if, sizes_verdict};
use pattern::measures::part_verdict;

// 17, 5, 10, 8: a split number; row or column outside; list not strictly rising; a part byte above 1.
#[tactic(auto, using(scanning::proofs::Joins::joins), unfolding(crate::specs::Writing::nonzero_verdict))]
fn nonzero_verdict(m: u64, n: u64, list: &[u8], parts: &[u8], t: u16) -> Result<(), Refusal>
    ensures { result ≡ nonzero_verdict m n list.now parts.now t }
{
    entry_verdict(m, n, list, t)?;
    part_verdict(parts, usize::from(t))
}

// The checks of the first nonzeros, in number order.
#[tactic(auto, using(crate::proofs::Answers::each_none, crate::proofs::Answers::checks_each))]
fn nonzeros_verdict(m: u64, n: u64, list: &[u8], parts: &[u8], nonzeros: u16) -> Result<(), Refusal>
    ensures { result ≡ each_verdict (nonzero_verdict m n list.now parts.now) nonzeros }
{
    // Kept: a loop of one check and `?`, as those of the list and of the parts are; with the check passed in as a closure it is no plainer.
    for t in 0..nonzeros {
        nonzero_verdict(m, n, list, parts, t)?;
    }
    Ok(())
}

// The checks of the writer but the last: 4, 9 for list and parts, then per nonzero 17, 5, 10, 8.
#[tactic(auto, using(scanning::proofs::Joins::joins, crate::proofs::Answers::sizes_then), unfolding(crate::specs::Writing::write_verdict))]
pub(crate) fn write_verdict(
    m: u64,
    n: u64,
    nonzeros: u64,
    list: &[u8],
    parts: &[u8],
) -> Result<(), Refusal>
    ensures { result ≡ write_verdict m n nonzeros list.now parts.now }
{
    sizes_verdict(m, n, nonzeros)?;
    let needed = nonzeros as usize;
    let short = list.len() < 4 * needed || parts.len() < needed;
    refuse_if(short, Word::ShortBuffer, 0)?;
    nonzeros_verdict(m, n, list, parts, nonzeros as u16)
}
