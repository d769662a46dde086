// A run begins: the marks of its trail but the last are placed on arrays that keep what is known of them.
ghost use Rattle.std.specs.Prelude.{List, ◌≡◌, ℕ, ◌≤◌, ◌<◌, length};
ghost use Rattle.trail.specs.Trail.{mark_room};
ghost use Rattle.model.specs.Pattern.{lines};
ghost use Rattle.model.specs.Marking.{marking};
ghost use Rattle.model.specs.State.{trail_of, record_of, search_of};
ghost use Rattle.pattern.specs.Matrix.{pattern_in};
ghost use Rattle.weighing.specs.Cells.{marking_in};
ghost use Rattle.packing.specs.Packed.{earlier};
ghost use Rattle.running.specs.Trying.{walk_to};
ghost use Rattle.running.specs.Run.{rules_in, Startable};

use crate::kept::Kept;
use crate::tables::{Crossed, Ranked, Tables};
use crate::trying::walk_on;
use crossing::laying::crossings;
use crossing::ordering::order_of;
use crossing::starting::line_starts;
use marking::marks::marks_by_line;
use model::Search;
use model::limits::LINE_ROOM;
use trail::Trail;

// The marks of a trail but the last, by line.
fn marks_before(trail: Trail, tables: &Tables<'_, '_>) -> [u8; LINE_ROOM]
    ensures { (τ : List ℕ) → trail ≡ trail_of τ → length τ ≤ mark_room → (l : ℕ) → l < lines (pattern_in tables.now.crossed.matrix) →
        marking_in result l ≡ marking (pattern_in tables.now.crossed.matrix) (earlier τ) l }
{
    marks_by_line(tables.crossed.matrix.lines(), tables.places, &trail.drop())
}

// So many tries from a search, or fewer only because it became complete, with k marks for a full trail.
// In a frame of its own, so that a call that is refused before takes no stack for its tables.
#[inline(never)]
pub(crate) fn run_from(search: Search, ranked: &Ranked<'_>, k: u16, budget: u64) -> Search
    requires { Startable search ranked.now.matrix k budget }
    ensures { result ≡ search_of (walk_to (rules_in search ranked.now.matrix) k budget (record_of search)) }
{
    let matrix = &ranked.matrix;
    let lines = matrix.lines();
    let starts = line_starts(&ranked.counts, lines);
    let cross = crossings(matrix, &starts);
    let order = order_of(&ranked.places, lines);
    let crossed = Crossed::over(matrix, &ranked.rows, &ranked.counts, &starts, &cross);
    let tables = Tables::over(ranked, crossed, &order);
    let given = marks_before(search.trail, &tables);
    let mut kept = Kept::of(
        &given,
        &tables.crossed,
        usize::from(tables.crossed.matrix.lines()),
    );
    walk_on(search, &tables, &mut kept, k, budget)
}
