// The state check of refusal 14, once it is known which markings are valid.
ghost use Rattle.std.specs.Prelude.{◌≡◌, ◌≤◌};
ghost use Rattle.model.specs.Limits.{line_limit, nonzero_limit};
ghost use Rattle.model.specs.State.{counts_fine};
ghost use Rattle.state.specs.StateBy.{trail_by, full_by, best_by, numbers_by};

use crate::legal::{are_marks, cuts_before, ones_allowed};
use model::limits::TRIES_LIMIT;
use model::{Caps, Search};
use pattern::cap::caps_outside;
use pattern::matrix::Matrix;
use trail::Trail;

// The trail is empty if the search is complete; else it has 1 to k legal marks, and its longest proper beginning is valid.
pub(crate) fn trail_fine(trail: Trail, complete: bool, k: usize, valid: bool, first: bool) -> bool
    ensures { result ≡ trail_by complete trail k valid first }
{
    let len = trail.len;
    let marks = trail.marks;
    if complete {
        return len == 0;
    }
    if len == 0 || k < len || !valid {
        return false;
    }
    are_marks(&marks, len) && ones_allowed(&marks, len, first)
}

// A best marking is full, valid and legal, and has best count cut lines.
#[tactic(auto, using(crate::proofs::StateLaws::other_length, crate::proofs::StateLaws::never_full))]
fn full_fine(best: Trail, k: usize, valid: bool, count: u64) -> bool
    ensures { result ≡ full_by best k valid count }
{
    let len = best.len;
    let marks = best.marks;
    if len != k || !valid {
        return false;
    }
    are_marks(&marks, len) && cuts_before(&marks, len) == count
}

// A best marking as it should be; without one the best count is k + 1 and the search not complete.
pub(crate) fn best_fine(search: Search, k: u16, valid: bool) -> bool
    ensures { result ≡ best_by search k valid }
{
    let count = search.best_count;
    if search.found {
        full_fine(search.best, usize::from(k), valid, count)
    } else {
        !search.complete && count == u64::from(k) + 1
    }
}

// Tries are in range, and looks are at most tries × m × N; the product fits where m and N are in range.
fn counts_fine(tries: u64, looks: u64, m: u64, nonzeros: u64) -> bool
    requires { (m ≤ line_limit) × (nonzeros ≤ nonzero_limit) }
    ensures { result ≡ counts_fine tries looks m nonzeros }
{
    tries <= TRIES_LIMIT && looks <= tries * m * nonzeros
}

// The numbers of a state: m, n and N are the list's, N is at most cap 0 + cap 1, and caps, tries and looks are in range.
pub(crate) fn numbers_fine(search: Search, matrix: &Matrix<'_>) -> bool
    requires { (matrix.now.m ≤ line_limit) × (matrix.now.nonzeros ≤ nonzero_limit) }
    ensures { result ≡ numbers_by search matrix.now.m matrix.now.n matrix.now.nonzeros }
{
    let m = u64::from(matrix.m);
    let nonzeros = u64::from(matrix.nonzeros);
    let caps = Caps {
        cap0: search.cap0,
        cap1: search.cap1,
    };
    let n = u64::from(matrix.n);
    if search.m != m || search.n != n || search.nonzeros != nonzeros || caps_outside(caps) {
        return false;
    }
    nonzeros <= caps.cap0 + caps.cap1 && counts_fine(search.tries, search.looks, m, nonzeros)
}
