// A pattern whose list is accepted, and what is read of it: its lines ranked, for every check of a search; where lines cross, for what is kept
// of a marking; and both, with the lines in order, for the tries.
ghost use Rattle.std.specs.Prelude.{◌≡◌};
ghost use Rattle.model.specs.Refusal.{accepted};
ghost use Rattle.model.specs.Calls.{list_verdict};
ghost use Rattle.pattern.specs.Matrix.{pattern_in};
ghost use Rattle.crossing.specs.Crossing.{Ordered};
ghost use Rattle.running.specs.Tabled.{RankedOf, CrossedOf, TablesOf};

use bound::tables::places;
use crossing::CROSS_ROOM;
use marking::order::{line_counts, total_of};
use matching::starts::row_starts;
use model::limits::{LINE_ROOM, SIDE_ENDS};
use pattern::matrix::Matrix;

// The pattern; where the nonzeros of each row start in its list; by line, the number of nonzeros and the place in the order; and the number of
// marks of a full trail. Its list is accepted, and the rest is its own.
#[derive(Clone, Copy)]
pub(crate) struct Ranked<'a> {
    pub matrix: Matrix<'a>,
    pub rows: [u16; SIDE_ENDS],
    pub counts: [u16; LINE_ROOM],
    pub places: [u16; LINE_ROOM],
    pub full: u16,
    ghost made: { RankedOf matrix rows counts places full },
}

impl<'a> Ranked<'a> {
    // The lines of a pattern whose list is accepted, ranked.
    pub(crate) fn of(matrix: &Matrix<'a>) -> Ranked<'a>
        requires { list_verdict matrix.now.m matrix.now.n matrix.now.nonzeros matrix.now.list.now ≡ accepted }
        ensures { result.matrix ≡ matrix.now }
    {
        let rows = row_starts(matrix);
        let counts = line_counts(matrix);
        let places = places(matrix, &counts);
        let full = total_of(&counts, matrix.lines());
        Ranked {
            matrix: *matrix,
            rows,
            counts,
            places,
            full,
        }
    }
}

// The pattern; where the nonzeros of each row start in its list; by line, the number of nonzeros and where its crossing lines start; and the
// crossing lines. Its list is accepted, and the rest is its own. The arrays are lent, so that none is copied.
#[derive(Clone, Copy)]
pub(crate) struct Crossed<'a, 't> {
    pub matrix: Matrix<'a>,
    pub rows: &'t [u16; SIDE_ENDS],
    pub counts: &'t [u16; LINE_ROOM],
    pub starts: &'t [u16; LINE_ROOM],
    pub cross: &'t [u16; CROSS_ROOM],
    ghost made: { CrossedOf matrix rows.now counts.now starts.now cross.now },
}

impl<'a, 't> Crossed<'a, 't> {
    // A pattern over the arrays that were made of it.
    pub(crate) fn over(
        matrix: &Matrix<'a>,
        rows: &'t [u16; SIDE_ENDS],
        counts: &'t [u16; LINE_ROOM],
        starts: &'t [u16; LINE_ROOM],
        cross: &'t [u16; CROSS_ROOM],
    ) -> Crossed<'a, 't>
        requires { CrossedOf matrix.now rows.now counts.now starts.now cross.now }
        ensures { result.matrix ≡ matrix.now }
    {
        Crossed {
            matrix: *matrix,
            rows,
            counts,
            starts,
            cross,
        }
    }
}

// A pattern with its crossing lines, the places of its lines, the lines in order, and the number of marks of a full trail. The tables are the
// pattern's own.
#[derive(Clone, Copy)]
pub(crate) struct Tables<'a, 't> {
    pub crossed: Crossed<'a, 't>,
    pub places: &'t [u16; LINE_ROOM],
    pub order: &'t [u16; LINE_ROOM],
    pub full: u16,
    ghost made: { TablesOf crossed.matrix crossed.rows.now crossed.counts.now places.now crossed.starts.now crossed.cross.now order.now full },
}

impl<'a, 't> Tables<'a, 't> {
    // The tables of a pattern whose lines are ranked, over its crossing lines and its lines in order.
    pub(crate) fn over(
        ranked: &'t Ranked<'a>,
        crossed: Crossed<'a, 't>,
        order: &'t [u16; LINE_ROOM],
    ) -> Tables<'a, 't>
        requires same { crossed.matrix ≡ ranked.now.matrix }
        requires ordered { Ordered (pattern_in ranked.now.matrix) order.now }
        ensures { result.crossed.matrix ≡ ranked.now.matrix }
    {
        Tables {
            crossed,
            places: &ranked.places,
            order,
            full: ranked.full,
        }
    }
}
