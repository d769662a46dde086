// What depends on the pattern alone.
ghost use Rattle.std.specs.Prelude.{List, ◌≡◌, ℕ, ◌+◌, ◌≤◌, ◌<◌, get_or};
ghost use Rattle.model.specs.Limits.{line_limit, line_room};
ghost use Rattle.model.specs.Pattern.{pattern_of, line_count};
ghost use Rattle.bound.specs.Evaluated.{Placed};

use marking::placing::places_of;
use model::limits::LINE_ROOM;
use pattern::matrix::Matrix;

/// The place of each line in the order, from the nonzero counts of lines, where there is room for every line and none has more nonzeros than one of an
/// accepted list. Of the matrix it takes the numbers of rows and columns: the counts may be those of any nonzeros.
pub fn places(matrix: &Matrix<'_>, counts: &[u16; LINE_ROOM]) -> [u16; LINE_ROOM]
    ensures { (nonzeros : ℕ) (list : List ℕ) → matrix.now.m + matrix.now.n ≤ line_room →
        ((l : ℕ) → l < line_room →
        get_or counts.now l 0 ≡ line_count (pattern_of matrix.now.m matrix.now.n nonzeros list) l) →
        ((l : ℕ) → line_count (pattern_of matrix.now.m matrix.now.n nonzeros list) l ≤ line_limit) →
        Placed (pattern_of matrix.now.m matrix.now.n nonzeros list) result }
{
    places_of(counts, matrix.lines())
}
