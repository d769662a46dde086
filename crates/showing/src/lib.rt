// Writing the split that a search shows: one pass over the nonzeros, in number order.
#![tactic(auto)]

ghost use Rattle.std.specs.Prelude.{not, ◌≡◌, ◌+◌, ltb};
ghost use Rattle.counting.specs.Tests.{◌and◌, ◌or◌, bit};
ghost use Rattle.model.specs.declared.Part.TheVariants.{Zero};
ghost use Rattle.model.specs.Marking.{taken};
ghost use Rattle.model.specs.Walk.{shown_split};
ghost use Rattle.model.specs.Calls.{part_bytes};
ghost use Rattle.pattern.specs.Matrix.{pattern_in};
ghost use Rattle.weighing.specs.Cells.{marking_in};
ghost use Rattle.showing.specs.Parts.{shown_part};

use model::Caps;
use model::limits::LINE_ROOM;
use pattern::matrix::Matrix;
use pattern::reading::put;
use weighing::taking::takes_by;

// The number of a nonzero's part, by whether 0 takes it, 1 takes it, and part 0 has room.
#[tactic(auto, unfolding(crate::specs::Parts::shown_part, counting::specs::Tests::pick))]
fn shown_part(zero: bool, one: bool, room: bool) -> u8
    ensures { result ≡ shown_part zero one room }
{
    match (zero, one) {
        (true, _) => 0,
        (false, true) => 1,
        (false, false) => if room { 0 } else { 1 },
    }
}

// Part 0 has fewer nonzeros than cap 0: those taken and those filled in.
fn has_room(taken: u16, filled: u16, cap0: u64) -> bool
    ensures { result ≡ ltb (taken + filled) cap0 }
{
    u64::from(taken) + u64::from(filled) < cap0
}

// What a nonzero adds to those filled in: 1 if neither part takes it and part 0 has room.
#[tactic(auto, using(weighing::proofs::Taken::joins))]
fn filled_by(zero: bool, one: bool, room: bool) -> u16
    ensures { result ≡ bit (not (zero or one) and room) }
{
    let taken = zero || one;
    u16::from(!taken && room)
}

/// Writes the shown split of a marking, of which part 0 takes so many nonzeros. Past the end of the parts it writes nothing.
pub fn write_split(
    matrix: &Matrix<'_>,
    caps: Caps,
    marks: &[u8; LINE_ROOM],
    zero: u16,
    parts: &mut [u8],
)
    ensures { zero ≡ taken (pattern_in matrix.now) (marking_in marks.now) Zero →
        parts.new ≡ part_bytes (shown_split (pattern_in matrix.now) caps (marking_in marks.now)) matrix.now.nonzeros parts.old }
{
    let rows = usize::from(matrix.m);
    let mut filled = 0;
    for t in 0..matrix.nonzeros {
        let row = usize::from(matrix.row_of(t));
        let column = rows + usize::from(matrix.column_of(t));
        let first = takes_by(marks, row, column, 0);
        let second = takes_by(marks, row, column, 1);
        let room = has_room(zero, filled, caps.cap0);
        put(parts, usize::from(t), shown_part(first, second, room));
        filled += filled_by(first, second, room);
    }
}
