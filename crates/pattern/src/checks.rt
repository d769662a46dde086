// The checks of a list of nonzeros and of an opening, in the refusal table's order.
// Kept: numbers and list are as a caller hands them in, of any size, of which the checks refuse some: the signatures that callers have stay.
ghost use Rattle.std.specs.Prelude.{◌≡◌, ◌≤◌};
ghost use Rattle.model.specs.Limits.{line_limit};
ghost use Rattle.model.specs.Refusal.{accepted, refuse, verdict_reply};
ghost use Rattle.model.specs.Calls.{outside, rises, sizes_verdict, split_number, off_matrix, entry_verdict, entries_verdict, list_verdict, open_verdict, list_replies, open_replies};
ghost use Rattle.pattern.specs.Checks.{caps_verdict};

use crate::cap::caps_outside;
use crate::reading::{byte_at, column_of, row_of};
use model::limits::{LINE_LIMIT, NONZERO_LIMIT};
use model::{Caps, Refusal, Word};

// A number of rows or columns outside its range.
fn outside_lines(x: u64) -> bool
    ensures { result ≡ outside line_limit x }
{
    x == 0 || LINE_LIMIT < x
}

/// A refusal where the test passes.
pub fn refuse_if(test: bool, word: Word, place: u64) -> Result<(), Refusal>
    ensures { result ≡ refuse test word place }
{
    if test {
        return Err(Refusal { word, place });
    }
    Ok(())
}

// 4: m, n or N outside its range.
pub fn sizes_verdict(m: u64, n: u64, nonzeros: u64) -> Result<(), Refusal>
    ensures { result ≡ sizes_verdict m n nonzeros }
{
    refuse_if(outside_lines(m), Word::TooBig, 0)?;
    refuse_if(outside_lines(n), Word::TooBig, 0)?;
    refuse_if(NONZERO_LIMIT < nonzeros, Word::TooBig, 0)?;
    refuse_if(m * n < nonzeros, Word::TooBig, 0)
}

// Nonzero t comes after the one before it.
fn is_rising(list: &[u8], t: u16) -> bool
    ensures { result ≡ rises list.now t }
{
    if t == 0 {
        return true;
    }
    let row = row_of(list, t);
    let before = row_of(list, t - 1);
    if before < row {
        return true;
    }
    before == row && column_of(list, t - 1) < column_of(list, t)
}

// The row or the column number of nonzero t has a high byte over 1.
fn is_split(list: &[u8], t: u16) -> bool
    ensures { result ≡ split_number list.now t }
{
    let at = 4 * usize::from(t);
    1 < byte_at(list, at + 1) || 1 < byte_at(list, at + 3)
}

// Nonzero t lies outside the matrix.
fn is_off(m: u64, n: u64, list: &[u8], t: u16) -> bool
    ensures { result ≡ off_matrix m n list.now t }
{
    m <= u64::from(row_of(list, t)) || n <= u64::from(column_of(list, t))
}

// 17, 5, 10: a split number; row or column outside; list not strictly rising.
#[tactic(auto, unfolding(model::specs::Calls::entry_verdict))]
pub fn entry_verdict(m: u64, n: u64, list: &[u8], t: u16) -> Result<(), Refusal>
    ensures { result ≡ entry_verdict m n list.now t }
{
    let place = u64::from(t);
    refuse_if(is_split(list, t), Word::SplitNumber, place)?;
    refuse_if(is_off(m, n, list, t), Word::OffMatrix, place)?;
    refuse_if(!is_rising(list, t), Word::Order, place)
}

// So many of the first nonzeros lie in the matrix and rise. Each number is read once: of the nonzero before, its cell is kept.
fn passed_over(m: u64, n: u64, list: &[u8], nonzeros: u16) -> u16
    requires { (m ≤ line_limit) × (n ≤ line_limit) }
    ensures { (result ≤ nonzeros) × (entries_verdict m n list.now result ≡ accepted) }
{
    let mut before: u64 = 0;
    for t in 0..nonzeros {
        let row = u64::from(row_of(list, t));
        let column = u64::from(column_of(list, t));
        let cell = 65536 * row + column + 1;
        if m <= row || n <= column || cell <= before {
            return t;
        }
        before = cell;
    }
    nonzeros
}

// The checks of the first nonzeros, in number order, from the first on that is not passed over.
#[tactic(auto, using(model::proofs::Theorems::Checks::each_more))]
fn entries_verdict(m: u64, n: u64, list: &[u8], nonzeros: u16) -> Result<(), Refusal>
    requires { (m ≤ line_limit) × (n ≤ line_limit) }
    ensures { result ≡ entries_verdict m n list.now nonzeros }
{
    // Kept: a loop of one check and `?`, as those of the parts and of the writer are; with the check passed in as a closure it is no plainer.
    for t in passed_over(m, n, list, nonzeros)..nonzeros {
        entry_verdict(m, n, list, t)?;
    }
    Ok(())
}

/// The checks of a list: 4, 9, then per nonzero 17, 5, 10.
#[tactic(auto, unfolding(model::specs::Calls::list_verdict, model::specs::Calls::list_replies))]
pub fn list_verdict(m: u64, n: u64, nonzeros: u64, list: &[u8]) -> Result<(), Refusal>
    ensures verdict { result ≡ list_verdict m n nonzeros list.now }
    ensures reply { verdict_reply result ≡ list_replies m n nonzeros list.now }
{
    sizes_verdict(m, n, nonzeros)?;
    refuse_if(list.len() < 4 * (nonzeros as usize), Word::ShortBuffer, 0)?;
    entries_verdict(m, n, list, nonzeros as u16)
}

// 11, 12: either cap outside its range; N above their sum.
#[tactic(auto, using(crate::proofs::Verdicts::caps_short, crate::proofs::Verdicts::caps_enough), unfolding(crate::specs::Checks::caps_verdict))]
fn caps_verdict(nonzeros: u64, caps: Caps) -> Result<(), Refusal>
    ensures { result ≡ caps_verdict nonzeros caps }
{
    refuse_if(caps_outside(caps), Word::Cap, 0)?;
    refuse_if(caps.cap0 + caps.cap1 < nonzeros, Word::NoSplit, 0)
}

/// Opening: the list's checks; then 11, 12.
#[tactic(auto, unfolding(model::specs::Calls::open_verdict, model::specs::Calls::open_replies, crate::specs::Checks::caps_verdict))]
pub fn open_verdict(m: u64, n: u64, nonzeros: u64, list: &[u8], caps: Caps) -> Result<(), Refusal>
    ensures verdict { result ≡ open_verdict m n nonzeros list.now caps }
    ensures reply { verdict_reply result ≡ open_replies m n nonzeros list.now caps }
{
    list_verdict(m, n, nonzeros, list)?;
    caps_verdict(nonzeros, caps)
}
