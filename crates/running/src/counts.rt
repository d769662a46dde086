// The counts of a line, changed by one nonzero.
ghost use Rattle.std.specs.Prelude.{not, ◌≡◌, ◌+◌, ◌*◌, ◌≤◌, ◌<◌, get_or, set};
ghost use Rattle.model.specs.Limits.{line_room};
ghost use Rattle.model.specs.Pattern.{Pattern, lines};
ghost use Rattle.keeping.specs.Kinds.{cells};
ghost use Rattle.keeping.specs.Tied.{Tied};
ghost use Rattle.running.specs.Ways.{moved, Countable};

use crate::room::{BY_ROOM, SUM_ROOM, TALLY_ROOM};
use crate::tally::shift;
use model::limits::LINE_ROOM;

// One more nonzero of line y is taken by p, or one that it has taken is given back.
pub(crate) fn count_one(
    by: &mut [u16; BY_ROOM],
    left: &mut [u16; LINE_ROOM],
    kinds: &[u8; LINE_ROOM],
    tally: &mut [u16; TALLY_ROOM],
    sums: &mut [u32; SUM_ROOM],
    y: usize,
    p: usize,
    taken: bool,
)
    requires { Countable taken by.old left.old kinds.now tally.old sums.old y p }
    ensures { (by.new ≡ set by.old (line_room * p + y) (moved taken (get_or by.old (line_room * p + y) 0)))
        × (left.new ≡ set left.old y (moved (not taken) (get_or left.old y 0)))
        × ((P : Pattern) → lines P ≤ line_room → y < lines P →
        Tied P (cells kinds.now) (cells left.old) tally.old sums.old →
        Tied P (cells kinds.now) (cells left.new) tally.new sums.new) }
{
    let own = left[y];
    let rest = if taken { own - 1 } else { own + 1 };
    shift(tally, sums, kinds[y], own, rest);
    left[y] = rest;
    let at = LINE_ROOM * p + y;
    by[at] = if taken { by[at] + 1 } else { by[at] - 1 };
}
