// The state check of refusal 14.
ghost use Rattle.std.specs.Prelude.{List, ◌≡◌, ℕ, ◌+◌, ◌≤◌};
ghost use Rattle.trail.specs.Trail.{mark_room};
ghost use Rattle.model.specs.Limits.{line_room, line_limit, nonzero_limit};
ghost use Rattle.model.specs.Pattern.{Inside};
ghost use Rattle.model.specs.Walk.{rules_of};
ghost use Rattle.model.specs.Marking.{marking, valid};
ghost use Rattle.model.specs.State.{marks_in, caps_in, record_of, state_fine};
ghost use Rattle.pattern.specs.Matrix.{pattern_in};
ghost use Rattle.bound.specs.Evaluated.{Placed};
ghost use Rattle.state.specs.Ready.{ReadyIn};

use crate::fine::{best_fine, numbers_fine, trail_fine};
use crate::holding::cleared;
use marking::marks::marks_by_line;
use model::limits::{LINE_LIMIT, LINE_ROOM, NONZERO_LIMIT};
use model::{Caps, Search};
use pattern::cap::unequal_caps;
use pattern::matrix::Matrix;
use trail::Trail;
use weighing::taking::{is_valid, taken_of};

// The marking that a trail holds is valid.
fn valid_of(trail: Trail, matrix: &Matrix<'_>, caps: Caps, places: &[u16; LINE_ROOM]) -> bool
    ensures { matrix.now.m + matrix.now.n ≤ line_room → Inside (pattern_in matrix.now) →
        Placed (pattern_in matrix.now) places.now → trail.len ≤ mark_room →
        result ≡ valid (pattern_in matrix.now) caps (marking (pattern_in matrix.now) (marks_in trail)) }
{
    let by_line = marks_by_line(matrix.lines(), places, &cleared(trail));
    is_valid(taken_of(matrix, &by_line), caps)
}

// The state check of refusal 14, with the tables of an accepted list, where m and N are in range.
fn ranged_fine(search: Search, matrix: &Matrix<'_>, places: &[u16; LINE_ROOM], k: u16) -> bool
    requires { (matrix.now.m ≤ line_limit) × (matrix.now.nonzeros ≤ nonzero_limit) }
    ensures { (starts : List ℕ) → ReadyIn matrix.now places.now starts k →
        result ≡ state_fine (rules_of (pattern_in matrix.now) (caps_in search)) matrix.now.m matrix.now.n matrix.now.nonzeros (record_of search) }
{
    let caps = Caps {
        cap0: search.cap0,
        cap1: search.cap1,
    };
    let whole = search.trail;
    let beginning = whole.drop();
    let begins = valid_of(beginning, matrix, caps, places);
    let full = valid_of(search.best, matrix, caps, places);
    let numbers = numbers_fine(search, matrix);
    let trail = trail_fine(
        whole,
        search.complete,
        usize::from(k),
        begins,
        unequal_caps(caps),
    );
    let best = best_fine(search, k, full);
    let sound = numbers && trail;
    sound && best
}

/// The state check of refusal 14, with the tables of an accepted list.
pub fn state_fine(search: Search, matrix: &Matrix<'_>, places: &[u16; LINE_ROOM], k: u16) -> bool
    ensures { (starts : List ℕ) → ReadyIn matrix.now places.now starts k →
        result ≡ state_fine (rules_of (pattern_in matrix.now) (caps_in search)) matrix.now.m matrix.now.n matrix.now.nonzeros (record_of search) }
{
    u64::from(matrix.m) <= LINE_LIMIT
        && u64::from(matrix.nonzeros) <= NONZERO_LIMIT
        && ranged_fine(search, matrix, places, k)
}
