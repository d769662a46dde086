// k: the number of lines with nonzeros.
ghost use Rattle.std.specs.Prelude.{◌≡◌, ◌+◌, ◌≤◌};
ghost use Rattle.model.specs.Limits.{line_room};
ghost use Rattle.model.specs.Pattern.{line_total};
ghost use Rattle.pattern.specs.Matrix.{pattern_in};

use marking::order::{line_counts, total_of};
use pattern::matrix::Matrix;

/// k: the number of lines with nonzeros, where there is room for every line.
pub fn line_total(matrix: &Matrix<'_>) -> u16
    ensures { matrix.now.m + matrix.now.n ≤ line_room → result ≡ line_total (pattern_in matrix.now) }
{
    let counts = line_counts(matrix);
    total_of(&counts, matrix.lines())
}
