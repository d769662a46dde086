// Load and volume of a split that is given as bytes: byte 0 is part 0, any other byte part 1.
ghost use Rattle.std.specs.Prelude.{◌≡◌, ◌+◌, ◌≤◌};
ghost use Rattle.model.specs.Limits.{line_room};
ghost use Rattle.counting.specs.Tests.{bit};
ghost use Rattle.counting.specs.Sums.{count};
ghost use Rattle.model.specs.Split.{volume};
ghost use Rattle.pattern.specs.Matrix.{pattern_in};
ghost use Rattle.pattern.specs.Splits.{split_of, in_part, load_of, held_with, held_lines, is_held, both_held};

use crate::matrix::Matrix;
use crate::reading::{byte_at, put};
use model::Part;
use model::limits::LINE_ROOM;

// The part of nonzero t.
#[tactic(auto, unfolding(crate::specs::Splits::split_of, counting::specs::Tests::pick))]
fn part_of(parts: &[u8], t: u16) -> Part
    ensures { result ≡ split_of parts.now t }
{
    if byte_at(parts, usize::from(t)) == 0 {
        Part::Zero
    } else {
        Part::One
    }
}

// Nonzero t is in a part.
#[tactic(auto, unfolding(crate::specs::Splits::in_part, model::specs::Split::same_part))]
fn is_in(parts: &[u8], part: Part, t: u16) -> bool
    ensures { result ≡ in_part parts.now part t }
{
    part == part_of(parts, t)
}

// Load: a part's number of nonzeros.
pub(crate) fn load_of(parts: &[u8], nonzeros: u16, part: Part) -> u64
    ensures { result ≡ load_of parts.now nonzeros part }
{
    let mut load: u64 = 0;
    for t in 0..nonzeros {
        load += u64::from(is_in(parts, part, t));
    }
    load
}

// Both lines of nonzero t held, where it is in the part.
fn hold_lines(matrix: &Matrix<'_>, parts: &[u8], part: Part, t: u16, held: &mut [u8; LINE_ROOM])
    ensures { held.new ≡ held_with matrix.now.m matrix.now.list.now parts.now part t held.old }
{
    if is_in(parts, part, t) {
        put(held, usize::from(matrix.row_of(t)), 1);
        put(
            held,
            usize::from(matrix.m) + usize::from(matrix.column_of(t)),
            1,
        );
    }
}

// The lines that hold a part, each with 1 at its number.
fn held_lines(matrix: &Matrix<'_>, parts: &[u8], part: Part) -> [u8; LINE_ROOM]
    ensures { result ≡ held_lines matrix.now.m matrix.now.list.now parts.now part matrix.now.nonzeros }
{
    let mut held = [0u8; LINE_ROOM];
    for t in 0..matrix.nonzeros {
        hold_lines(matrix, parts, part, t, &mut held);
    }
    held
}

// Line l is held.
fn is_held(held: &[u8], l: usize) -> bool
    ensures { result ≡ is_held held.now l }
{
    byte_at(held, l) == 1
}

// What line l adds to the number of lines held in both lists.
fn cut_of(zeros: &[u8], ones: &[u8], l: usize) -> u64
    ensures { result ≡ bit (both_held zeros.now ones.now l) }
{
    u64::from(is_held(zeros, l) && is_held(ones, l))
}

// The number of lines held in both lists.
fn cuts_of(zeros: &[u8], ones: &[u8], lines: usize) -> u64
    ensures { result ≡ count (both_held zeros.now ones.now) lines }
{
    let mut cuts: u64 = 0;
    for l in 0..lines {
        cuts += cut_of(zeros, ones, l);
    }
    cuts
}

// Volume of a split: the number of lines with nonzeros in both parts, where there is room for every line.
pub fn volume_of(matrix: &Matrix<'_>, parts: &[u8]) -> u64
    ensures { matrix.now.m + matrix.now.n ≤ line_room → result ≡ volume (pattern_in matrix.now) (split_of parts.now) }
{
    let zeros = held_lines(matrix, parts, Part::Zero);
    let ones = held_lines(matrix, parts, Part::One);
    cuts_of(&zeros, &ones, usize::from(matrix.m) + usize::from(matrix.n))
}
