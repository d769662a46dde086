// The record of a search in its struct: fresh, and with 0 in every mark past a marking's length.
ghost use Rattle.std.specs.Prelude.{◌≡◌, [], ◌∷◌, suc};
ghost use Rattle.model.specs.Walk.{fresh};
ghost use Rattle.model.specs.State.{array_of, trail_of, search_of, no_record};
ghost use Rattle.state.specs.Holding.{cleared_to, best_to, normal_of};

use model::{Caps, Search};
use trail::{MARK_ROOM, Trail};

// No marks.
fn no_marks() -> [u8; MARK_ROOM]
    ensures { result ≡ array_of [] }
{
    [0u8; MARK_ROOM]
}

// No marking.
fn no_trail() -> Trail
    ensures { result ≡ trail_of [] }
{
    Trail {
        marks: no_marks(),
        len: 0,
    }
}

/// A trail with 0 in every mark past its length; one that does not fit its array is left out.
pub fn cleared(trail: Trail) -> Trail
    ensures { result ≡ cleared_to trail }
{
    let marks = trail.marks;
    let len = trail.len;
    if MARK_ROOM < len {
        return no_trail();
    }
    let mut kept = no_marks();
    kept[..len].copy_from_slice(&marks[..len]);
    Trail { marks: kept, len }
}

/// A search with 0 in every mark past a marking's length, and in every mark where there is no best marking.
pub fn normal(mut search: Search) -> Search
    ensures { result ≡ normal_of search }
{
    search.trail = cleared(search.trail);
    search.best = best_or_none(search.found, search.best);
    search
}

// The best marking, cleared, where there is one.
fn best_or_none(found: bool, best: Trail) -> Trail
    ensures { result ≡ best_to found best }
{
    if found { cleared(best) } else { no_trail() }
}

// A search of a pattern without nonzeros, which is complete.
fn blank(m: u64, n: u64, nonzeros: u64, caps: Caps) -> Search
    ensures { result ≡ search_of (fresh m n nonzeros caps 0) }
{
    Search {
        m,
        n,
        nonzeros,
        cap0: caps.cap0,
        cap1: caps.cap1,
        found: true,
        complete: true,
        ..no_search()
    }
}

// The trail of one mark, 0.
fn first_trail() -> Trail
    ensures { result ≡ trail_of (0 ∷ []) }
{
    no_trail().append(0)
}

// A fresh search of k + 1 lines with nonzeros.
fn begun(m: u64, n: u64, nonzeros: u64, caps: Caps, k: u16) -> Search
    ensures { result ≡ search_of (fresh m n nonzeros caps (suc k)) }
{
    Search {
        m,
        n,
        nonzeros,
        cap0: caps.cap0,
        cap1: caps.cap1,
        best_count: u64::from(k) + 2,
        trail: first_trail(),
        ..no_search()
    }
}

/// A fresh search of k lines with nonzeros.
pub fn fresh_search(m: u64, n: u64, nonzeros: u64, caps: Caps, k: u16) -> Search
    ensures { result ≡ search_of (fresh m n nonzeros caps k) }
{
    if k == 0 {
        return blank(m, n, nonzeros, caps);
    }
    begun(m, n, nonzeros, caps, k - 1)
}

/// The search that stands where an opening is refused: 0 in every field, with no marks and no best marking, and not complete.
pub fn no_search() -> Search
    ensures { result ≡ search_of no_record }
{
    let best = no_trail();
    let trail = no_trail();
    Search {
        m: 0,
        n: 0,
        nonzeros: 0,
        cap0: 0,
        cap1: 0,
        tries: 0,
        looks: 0,
        best_count: 0,
        found: false,
        best,
        complete: false,
        trail,
    }
}
