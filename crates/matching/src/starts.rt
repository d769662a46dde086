// Where the nonzeros of each row start in the list.
ghost use Rattle.std.specs.Prelude.{◌≡◌, ℕ, ◌≤◌, ◌<◌, length, get_or};
ghost use Rattle.model.specs.Pattern.{pattern_of};
ghost use Rattle.matching.specs.Starts.{side_room, side_ends, row_start, row_count, no_starts};

use model::limits::{SIDE_ENDS, SIDE_ROOM};
use pattern::matrix::Matrix;

// A number for each row, and one more.
fn no_starts() -> [u16; SIDE_ENDS]
    ensures { result ≡ no_starts }
{
    [0u16; SIDE_ENDS]
}

// The number of nonzeros of each row, kept one place up.
fn row_counts(matrix: &Matrix<'_>) -> [u16; SIDE_ENDS]
    ensures { (length result ≡ side_ends)
        × ((i : ℕ) → i ≤ side_room → get_or result i 0 ≡ row_count matrix.now.list.now matrix.now.nonzeros i)
        × (matrix.now.nonzeros < 65536) }
{
    let mut counts = no_starts();
    for t in 0..matrix.nonzeros {
        let at = usize::from(matrix.row_of(t)) + 1;
        if at < SIDE_ENDS {
            counts[at] += 1;
        }
    }
    counts
}

/// The number of nonzeros before each row, for any numbers of rows and columns.
pub fn row_starts(matrix: &Matrix<'_>) -> [u16; SIDE_ENDS]
    ensures { (m n i : ℕ) → i ≤ side_room →
        get_or result i 0 ≡ row_start (pattern_of m n matrix.now.nonzeros matrix.now.list.now) i }
{
    let mut starts = row_counts(matrix);
    for i in 0..SIDE_ROOM {
        starts[i + 1] += starts[i];
    }
    starts
}
