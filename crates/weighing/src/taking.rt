// What a marking takes, and whether it is valid: one pass over the nonzeros.
ghost use Rattle.std.specs.Prelude.{◌≡◌, ℕ, eqb};
ghost use Rattle.counting.specs.Tests.{◌or◌, bit};
ghost use Rattle.model.specs.Pattern.{pattern_of};
ghost use Rattle.weighing.specs.Cells.{marking_in};
ghost use Rattle.weighing.specs.Taking.{TakenOf, valid_by};

use model::Caps;
use model::limits::LINE_ROOM;
use pattern::matrix::Matrix;

/// D0 and D1, and whether some nonzero is taken by both parts.
// Kept: D0 and D1 are given where `both` holds too, as `evaluate_lines` promises them of every marking.
#[derive(Clone, Copy)]
pub struct Taken {
    pub zero: u16,
    pub one: u16,
    pub both: bool,
}

// The mark of a line, folded into the array, so that there is no test for its end.
#[tactic(auto, unfolding(crate::specs::Cells::marking_in))]
fn line_mark(marks: &[u8; LINE_ROOM], line: usize) -> u8
    ensures { result ≡ marking_in marks.now line }
{
    marks[line % LINE_ROOM]
}

/// A nonzero, of which these are the lines of its row and its column, is taken by a part.
#[tactic(auto, using(crate::proofs::Taken::joins))]
pub fn takes_by(marks: &[u8; LINE_ROOM], row: usize, column: usize, part: u8) -> bool
    ensures { result ≡ eqb (marking_in marks.now row) part or eqb (marking_in marks.now column) part }
{
    line_mark(marks, row) == part || line_mark(marks, column) == part
}

// One where a test passes, else none.
#[tactic(auto, using(crate::proofs::Taken::joins))]
fn share_of(test: bool) -> u16
    ensures { result ≡ bit test }
{
    u16::from(test)
}

/// D0 and D1 of a marking, and whether some nonzero is taken by both parts, whatever the number of columns.
pub fn taken_of(matrix: &Matrix<'_>, marks: &[u8; LINE_ROOM]) -> Taken
    ensures { (n : ℕ) →
        TakenOf (pattern_of matrix.now.m n matrix.now.nonzeros matrix.now.list.now) (marking_in marks.now) result }
{
    let rows = usize::from(matrix.m);
    let mut zero = 0;
    let mut one = 0;
    let mut both = false;
    for t in 0..matrix.nonzeros {
        let row = usize::from(matrix.row_of(t));
        let column = rows + usize::from(matrix.column_of(t));
        let first = takes_by(marks, row, column, 0);
        let second = takes_by(marks, row, column, 1);
        zero += share_of(first);
        one += share_of(second);
        both |= first && second;
    }
    Taken { zero, one, both }
}

/// The marking is valid: no nonzero is taken by both parts, and D0 is at most cap 0 and D1 at most cap 1.
#[tactic(auto, using(crate::proofs::Taken::joins), unfolding(crate::specs::Taking::valid_by))]
pub fn is_valid(taken: Taken, caps: Caps) -> bool
    ensures { result ≡ valid_by taken caps }
{
    !taken.both && u64::from(taken.zero) <= caps.cap0 && u64::from(taken.one) <= caps.cap1
}
