// A mark is placed on a line, and lifted from it: all that is kept follows.
ghost use Rattle.std.specs.Prelude.{not, ◌≡◌, ℕ, ◌<◌};
ghost use Rattle.model.specs.Pattern.{Pattern, lines};
ghost use Rattle.model.specs.Marking.{Marking, unmarked};
ghost use Rattle.pattern.specs.Matrix.{pattern_in};
ghost use Rattle.crossing.specs.Crossing.{Laid};
ghost use Rattle.keeping.specs.Kept.{Stage, Placeable, marking_with};
ghost use Rattle.running.specs.Ways.{Passable, besides};

use crate::counts::count_one;
use crate::kept::Kept;
use crate::kinds::{settle, settle_if};
use crate::room::{BY_ROOM, SUM_ROOM, TALLY_ROOM};
use crate::tables::Crossed;
use crossing::CROSS_ROOM;
use model::limits::LINE_ROOM;

// The nonzeros of line l are taken by p, or those that it has taken are given back, one by one, and each crossing line is settled where its count
// becomes 1, or 0.
fn count_all(
    starts: &[u16; LINE_ROOM],
    cross: &[u16; CROSS_ROOM],
    marks: &[u8; LINE_ROOM],
    by: &mut [u16; BY_ROOM],
    left: &mut [u16; LINE_ROOM],
    kinds: &mut [u8; LINE_ROOM],
    tally: &mut [u16; TALLY_ROOM],
    sums: &mut [u32; SUM_ROOM],
    l: usize,
    p: usize,
    taken: bool,
)
    requires { Passable taken starts.now cross.now marks.now by.old left.old kinds.old tally.old sums.old l p }
    ensures { (P : Pattern) (μ : Marking) → Laid P starts.now cross.now → l < lines P → μ l ≡ unmarked →
        Stage P μ p (besides (not taken) P l) marks.now by.old left.old kinds.old tally.old sums.old →
        Stage P μ p (besides taken P l) marks.now by.new left.new kinds.new tally.new sums.new }
{
    let from = usize::from(starts[l]);
    let end = usize::from(starts[l + 1]);
    for i in from..end {
        let y = usize::from(cross[i]);
        count_one(by, left, kinds, tally, sums, y, p, taken);
        let turned = by[LINE_ROOM * p + y] == u16::from(taken);
        settle_if(
            starts, cross, marks, by, left, kinds, tally, sums, y, turned,
        );
    }
}

impl Kept {
    ghost use Rattle.running.specs.Kept.{KeepsOn, PushableOn, PoppableOn};

    // Line l, which is unmarked, gets mark p.
    // Kept: the arrays go on apart, each by its own `&mut`: a loop of stores through one `&mut self`, as measured, took 1.2 to 2 times as long.
    pub(crate) fn push(&mut self, crossed: &Crossed<'_, '_>, l: usize, p: u8)
        requires { PushableOn crossed.now self.old l p }
        ensures { (μ : Marking) → Placeable (pattern_in crossed.now.matrix) μ l p →
            KeepsOn crossed.now μ self.old → KeepsOn crossed.now (marking_with μ l p) self.new }
    {
        let Kept {
            marks,
            by,
            left,
            kinds,
            tally,
            sums,
            loads,
        } = self;
        let Crossed { starts, cross, .. } = *crossed;
        marks[l] = p;
        settle(starts, cross, marks, by, left, kinds, tally, sums, l);
        let mark = usize::from(p);
        if mark < 2 {
            loads[mark] = loads[mark] + left[l];
            count_all(
                starts, cross, marks, by, left, kinds, tally, sums, l, mark, true,
            );
        } else {
            loads[2] = loads[2] + 1;
        }
    }

    // Line l loses its mark, the last that was placed.
    pub(crate) fn pop(&mut self, crossed: &Crossed<'_, '_>, l: usize)
        requires { PoppableOn crossed.now self.old l }
        ensures { (μ : Marking) (p : ℕ) → Placeable (pattern_in crossed.now.matrix) μ l p →
            KeepsOn crossed.now (marking_with μ l p) self.old → KeepsOn crossed.now μ self.new }
    {
        let Kept {
            marks,
            by,
            left,
            kinds,
            tally,
            sums,
            loads,
        } = self;
        let Crossed { starts, cross, .. } = *crossed;
        let mark = usize::from(marks[l]);
        let mut gain = 1;
        if mark < 2 {
            count_all(
                starts, cross, marks, by, left, kinds, tally, sums, l, mark, false,
            );
            gain = left[l];
        }
        loads[mark] -= gain;
        marks[l] = 3;
        settle(starts, cross, marks, by, left, kinds, tally, sums, l);
    }
}
