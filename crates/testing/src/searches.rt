// A search that stands where an opening is refused.
use model::Search;
use trail::{MARK_ROOM, Trail};

// A marking of no lines.
const NO_TRAIL: Trail = Trail {
    marks: [0; MARK_ROOM],
    len: 0,
};

/// A search of no matrix, without a best marking and not complete: the cases go on with it where an opening is refused.
pub const NO_SEARCH: Search = Search {
    m: 0,
    n: 0,
    nonzeros: 0,
    cap0: 0,
    cap1: 0,
    tries: 0,
    looks: 0,
    best_count: 0,
    found: false,
    best: NO_TRAIL,
    complete: false,
    trail: NO_TRAIL,
};
