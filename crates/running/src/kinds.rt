// The kinds of lines, and the counts that are tied to them.
ghost use Rattle.std.specs.Prelude.{false, ◌≡◌, ℕ, ◌+◌, ◌<◌, eqb, length, get_or, set};
ghost use Rattle.counting.specs.Tests.{pick};
ghost use Rattle.model.specs.Limits.{line_room};
ghost use Rattle.model.specs.Pattern.{Pattern, lines};
ghost use Rattle.crossing.specs.Crossing.{Laid};
ghost use Rattle.keeping.specs.Kinds.{cells, kind_number, kind_of};
ghost use Rattle.keeping.specs.Tied.{Tied, Turnable};
ghost use Rattle.keeping.specs.Moves.{Nears};
ghost use Rattle.keeping.specs.Kept.{meets, Shiftable};
ghost use Rattle.running.specs.Ways.{Way};

use crate::room::{BY_ROOM, NEAR_PLACE, SUM_ROOM, TALLY_ROOM};
use crate::tally::{count_line, step};
use crossing::CROSS_ROOM;
use model::limits::LINE_ROOM;
use model::{Condition, Part};
use weighing::leaning::condition_of;

// The number of a condition.
fn kind_number(condition: Condition) -> u8
    ensures { result ≡ kind_number condition }
{
    match condition {
        Condition::Marked(_) | Condition::Untouched => 2,
        Condition::Torn => 3,
        Condition::Leaning(Part::Zero) => 0,
        Condition::Leaning(Part::One) => 1,
    }
}

// The kind of a line, from its mark and how many of its crossing lines are marked 0 and 1.
fn kind_of(mark: u8, zero: u16, one: u16) -> u8
    ensures { result ≡ kind_of mark zero one }
{
    kind_number(condition_of(mark, 0 < zero, 0 < one))
}

// Line y is counted once more, or once less, among the crossing lines of this kind of each line that it crosses.
fn shift_near(
    starts: &[u16; LINE_ROOM],
    cross: &[u16; CROSS_ROOM],
    tally: &mut [u16; TALLY_ROOM],
    y: usize,
    kind: u8,
    up: bool,
)
    requires { Shiftable starts.now cross.now tally.old y kind up }
    ensures { (P : Pattern) → Laid P starts.now cross.now → y < lines P →
        Way up (Nears kind (meets P y)) tally.old tally.new }
{
    if kind < 2 {
        let base = NEAR_PLACE + LINE_ROOM * usize::from(kind);
        let from = usize::from(starts[y]);
        let end = usize::from(starts[y + 1]);
        for i in from..end {
            step(tally, base + usize::from(cross[i]), up);
        }
    }
}

// Line y gets another kind.
fn set_kind(
    starts: &[u16; LINE_ROOM],
    cross: &[u16; CROSS_ROOM],
    left: &[u16; LINE_ROOM],
    kinds: &mut [u8; LINE_ROOM],
    tally: &mut [u16; TALLY_ROOM],
    sums: &mut [u32; SUM_ROOM],
    y: usize,
    to: u8,
)
    requires { Turnable starts.now cross.now kinds.old left.now tally.old sums.old y }
    ensures { (kinds.new ≡ set kinds.old y to)
        × ((P : Pattern) → Laid P starts.now cross.now → y < lines P →
        Tied P (cells kinds.old) (cells left.now) tally.old sums.old →
        Tied P (cells kinds.new) (cells left.now) tally.new sums.new) }
{
    let from = kinds[y];
    let own = left[y];
    let zero = u32::from(tally[NEAR_PLACE + y]);
    let one = u32::from(tally[NEAR_PLACE + LINE_ROOM + y]);
    count_line(tally, sums, from, own, zero, one, false);
    shift_near(starts, cross, tally, y, from, false);
    kinds[y] = to;
    shift_near(starts, cross, tally, y, to, true);
    count_line(tally, sums, to, own, zero, one, true);
}

// Line y gets the kind that its mark and its counts give it.
pub(crate) fn settle(
    starts: &[u16; LINE_ROOM],
    cross: &[u16; CROSS_ROOM],
    marks: &[u8; LINE_ROOM],
    by: &[u16; BY_ROOM],
    left: &[u16; LINE_ROOM],
    kinds: &mut [u8; LINE_ROOM],
    tally: &mut [u16; TALLY_ROOM],
    sums: &mut [u32; SUM_ROOM],
    y: usize,
)
    requires { Turnable starts.now cross.now kinds.old left.now tally.old sums.old y }
    ensures { (length kinds.new ≡ line_room)
        × ((z : ℕ) → z < line_room → get_or kinds.new z 0
        ≡ pick (eqb z y) (kind_of (get_or marks.now y 0) (get_or by.now y 0) (get_or by.now (line_room + y) 0)) (get_or kinds.old z 0))
        × ((P : Pattern) → Laid P starts.now cross.now → y < lines P →
        Tied P (cells kinds.old) (cells left.now) tally.old sums.old →
        Tied P (cells kinds.new) (cells left.now) tally.new sums.new) }
{
    let to = kind_of(marks[y], by[y], by[LINE_ROOM + y]);
    if to != kinds[y] {
        set_kind(starts, cross, left, kinds, tally, sums, y, to);
    }
}

// The same, spared where line y has not turned: it has that kind already.
pub(crate) fn settle_if(
    starts: &[u16; LINE_ROOM],
    cross: &[u16; CROSS_ROOM],
    marks: &[u8; LINE_ROOM],
    by: &[u16; BY_ROOM],
    left: &[u16; LINE_ROOM],
    kinds: &mut [u8; LINE_ROOM],
    tally: &mut [u16; TALLY_ROOM],
    sums: &mut [u32; SUM_ROOM],
    y: usize,
    turned: bool,
)
    requires { Turnable starts.now cross.now kinds.old left.now tally.old sums.old y
        × (turned ≡ false → get_or kinds.old y 0
        ≡ kind_of (get_or marks.now y 0) (get_or by.now y 0) (get_or by.now (line_room + y) 0)) }
    ensures { (length kinds.new ≡ line_room)
        × ((z : ℕ) → z < line_room → get_or kinds.new z 0
        ≡ pick (eqb z y) (kind_of (get_or marks.now y 0) (get_or by.now y 0) (get_or by.now (line_room + y) 0)) (get_or kinds.old z 0))
        × ((P : Pattern) → Laid P starts.now cross.now → y < lines P →
        Tied P (cells kinds.old) (cells left.now) tally.old sums.old →
        Tied P (cells kinds.new) (cells left.now) tally.new sums.new) }
{
    if turned {
        settle(starts, cross, marks, by, left, kinds, tally, sums, y);
    }
}
