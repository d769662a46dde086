// The tally and the sums: with a line more or less, and with a line that has another number of untaken nonzeros.
ghost use Rattle.std.specs.Prelude.{◌≡◌, ◌-◌, ◌<◌, length, get_or};
ghost use Rattle.keeping.specs.Tied.{tally_room};
ghost use Rattle.keeping.specs.Moves.{Raised, near_in, Moves, Movable};
ghost use Rattle.running.specs.Ways.{Way, Changeable, Addable, Added};

use crate::room::{BOTH_PLACE, CONFLICTS_PLACE, SUM_ROOM, TALLY_ROOM, TORN_PLACE};
use model::limits::SIDE_ENDS;

// One line more at a place of the tally, or one line less.
pub(crate) fn step(tally: &mut [u16; TALLY_ROOM], at: usize, up: bool)
    requires { (length tally.old ≡ tally_room) × (at < tally_room) × Changeable up 65536 1 (get_or tally.old at 0) }
    ensures { Way up (Raised at 1) tally.old tally.new }
{
    if up {
        tally[at] += 1;
    } else {
        tally[at] -= 1;
    }
}

// So much more at a place of the sums, or so much less.
fn change(sums: &mut [u32; SUM_ROOM], at: usize, by: u32, up: bool)
    requires { (length sums.old ≡ 6) × (at < 6) × Changeable up 4294967296 by (get_or sums.old at 0) }
    ensures { Way up (Raised at by) sums.old sums.new }
{
    if up {
        sums[at] += by;
    } else {
        sums[at] -= by;
    }
}

// A line that leans to p is counted, with so many untaken nonzeros and crossing lines that lean to the same and to the other part, or is no longer
// counted.
fn lean(
    tally: &mut [u16; TALLY_ROOM],
    sums: &mut [u32; SUM_ROOM],
    p: usize,
    own: u16,
    same: u32,
    other: u32,
    up: bool,
)
    requires { (p < 2) × Addable up p own same other tally.old sums.old }
    ensures { Added up p own same other tally.old sums.old tally.new sums.new }
{
    step(tally, SIDE_ENDS * p + usize::from(own), up);
    change(sums, p, u32::from(own), up);
    change(sums, BOTH_PLACE + p, same, up);
    change(sums, CONFLICTS_PLACE, other, up);
}

// A line of this kind is counted, or no longer counted.
pub(crate) fn count_line(
    tally: &mut [u16; TALLY_ROOM],
    sums: &mut [u32; SUM_ROOM],
    kind: u8,
    own: u16,
    zero: u32,
    one: u32,
    up: bool,
)
    requires { Addable up kind own (near_in zero one kind) (near_in zero one (1 - kind)) tally.old sums.old }
    ensures { Added up kind own (near_in zero one kind) (near_in zero one (1 - kind)) tally.old sums.old tally.new sums.new }
{
    match kind {
        0 => lean(tally, sums, 0, own, zero, one, up),
        1 => lean(tally, sums, 1, own, one, zero, up),
        3 => change(sums, TORN_PLACE, 1, up),
        _ => {}
    }
}

// A line of this kind gets another number of untaken nonzeros.
pub(crate) fn shift(
    tally: &mut [u16; TALLY_ROOM],
    sums: &mut [u32; SUM_ROOM],
    kind: u8,
    from: u16,
    to: u16,
)
    requires { Movable kind from to tally.old sums.old }
    ensures { Moves kind from to tally.old sums.old tally.new sums.new }
{
    if kind < 2 {
        let p = usize::from(kind);
        let base = SIDE_ENDS * p;
        step(tally, base + usize::from(from), false);
        step(tally, base + usize::from(to), true);
        sums[p] = sums[p] - u32::from(from) + u32::from(to);
    }
}
