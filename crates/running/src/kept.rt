// All that is kept of a valid marking: its marks are placed line by line.
ghost use Rattle.std.specs.Prelude.{true, [], ◌≡◌, min};
ghost use Rattle.model.specs.declared.Caps.{Caps};
ghost use Rattle.model.specs.Pattern.{lines};
ghost use Rattle.model.specs.Marking.{Marking, marking, unmarked, valid};
ghost use Rattle.pattern.specs.Matrix.{pattern_in};
ghost use Rattle.weighing.specs.Cells.{marking_in};
ghost use Rattle.keeping.specs.Kept.{marking_with};

use crate::room::{BY_ROOM, LOAD_ROOM, SUM_ROOM, TALLY_ROOM};
use crate::tables::Crossed;
use marking::marks::unmarked_lines;
use model::limits::LINE_ROOM;

// What is kept of a marking, as `Keeps` says it.
// Kept: `kinds` are numbers, since 0 and 1 are the places of a part in the tally and the sums, and the parts that `Ground` reads off them.
#[derive(Clone, Copy)]
pub(crate) struct Kept {
    pub by: [u16; BY_ROOM],
    pub marks: [u8; LINE_ROOM],
    pub left: [u16; LINE_ROOM],
    pub kinds: [u8; LINE_ROOM],
    pub tally: [u16; TALLY_ROOM],
    pub sums: [u32; SUM_ROOM],
    pub loads: [u16; LOAD_ROOM],
}

impl Kept {
    ghost use Rattle.running.specs.Kept.{KeepsOn};
    ghost use Rattle.running.specs.Laying.{first_marks, Settable, SettableIn, Givable, Keepable};

    // What is kept of no marks: each line has all its nonzeros left, and none leans or is torn.
    // Inlined, so that the arrays are made where they stay.
    #[inline(always)]
    fn none(crossed: &Crossed<'_, '_>) -> Kept
        ensures { KeepsOn crossed.now (marking (pattern_in crossed.now.matrix) []) result }
    {
        Kept {
            marks: unmarked_lines(),
            by: [0; BY_ROOM],
            left: *crossed.counts,
            kinds: [2; LINE_ROOM],
            tally: [0; TALLY_ROOM],
            sums: [0; SUM_ROOM],
            loads: [0; LOAD_ROOM],
        }
    }

    // Line l, which is unmarked, gets mark p, or none where p is no mark.
    fn place_if(&mut self, crossed: &Crossed<'_, '_>, l: usize, p: u8)
        requires { SettableIn crossed.now self.old l p }
        ensures { (μ : Marking) → Settable (pattern_in crossed.now.matrix) μ l p →
            KeepsOn crossed.now μ self.old → KeepsOn crossed.now (marking_with μ l (min p unmarked)) self.new }
    {
        if p < 3 {
            self.push(crossed, l, p);
        }
    }

    // Places the marks of an array by line, line by line.
    fn place_all(&mut self, crossed: &Crossed<'_, '_>, given: &[u8; LINE_ROOM], end: usize)
        requires { Givable crossed.now given.now self.old end }
        ensures { (caps : Caps) → end ≡ lines (pattern_in crossed.now.matrix) →
            valid (pattern_in crossed.now.matrix) caps (marking_in given.now) ≡ true →
            KeepsOn crossed.now (marking (pattern_in crossed.now.matrix) []) self.old →
            KeepsOn crossed.now (first_marks (marking_in given.now) end) self.new }
    {
        for l in 0..end {
            self.place_if(crossed, l, given[l]);
        }
    }

    // All that is kept of a valid marking, with the crossing lines of its pattern.
    // In a frame of its own, so that the arrays that it is made by are gone from the stack when a run begins.
    #[inline(never)]
    pub(crate) fn of(given: &[u8; LINE_ROOM], crossed: &Crossed<'_, '_>, end: usize) -> Kept
        requires { Keepable given.now crossed.now end }
        ensures { (caps : Caps) → end ≡ lines (pattern_in crossed.now.matrix) →
            valid (pattern_in crossed.now.matrix) caps (marking_in given.now) ≡ true →
            KeepsOn crossed.now (first_marks (marking_in given.now) end) result }
    {
        let mut kept = Kept::none(crossed);
        kept.place_all(crossed, given, end);
        kept
    }
}
