// The search for augmenting paths, from a row to a column and from the column back to its matched row, with its looks.
// Any values are taken; the two visits only ask for a row and a column within the arrays of columns entered and of mates, and for their length.
ghost use Rattle.std.specs.Prelude.{◌≡◌, not, ◌+◌, ◌-◌, ◌≤◌, ◌<◌, ltb, length, get_or};
ghost use Rattle.counting.specs.Tests.{◌and◌};
ghost use Rattle.model.specs.Limits.{line_room};
ghost use Rattle.model.specs.Walk.{is_empty};
ghost use Rattle.matching.specs.Augmenting.{ground_in, side_room, different, at_odds, columns_in, RowVisits, ColumnVisits, no_columns, Starts, matching_in};

use model::limits::{LINE_ROOM, SIDE_ENDS, SIDE_ROOM};
use pattern::reading::{byte_at, column_of};

/// What a visit answers: whether it ended at an unmatched column, and its looks.
// Kept: a visit that finds no column has looks too, so that no Option holds them.
#[derive(Clone, Copy)]
pub struct Visit {
    pub found: bool,
    pub looks: u64,
}

/// The size of a matching, and the looks that it took to find it.
#[derive(Clone, Copy)]
pub struct Matching {
    pub size: u64,
    pub looks: u64,
}

/// What the search goes over: the part that each line leans to (0 or 1, any other number for neither), the number of rows, the list, and where
/// each row starts in it: row i has the nonzeros numbered from starts[i] to starts[i + 1] - 1.
/// The methods take it by reference: the visits call each other as deep as there are rows, so that by value each field is paid for in stack.
#[derive(Clone, Copy)]
pub struct Ground<'a> {
    pub lean: &'a [u8; LINE_ROOM],
    pub m: u16,
    pub list: &'a [u8],
    pub starts: &'a [u16; SIDE_ENDS],
}

// One leans to part 0 and the other to part 1: no other numbers add up to 1.
fn differ(a: u8, b: u8) -> bool
    ensures { result ≡ different a b }
{
    u16::from(a) + u16::from(b) == 1
}

// How many columns after m rows the leanings have room for.
fn columns_held(m: u16) -> usize
    ensures { (result ≤ side_room) × (result ≤ line_room - m) × (result < side_room → result ≡ line_room - m) }
{
    LINE_ROOM.saturating_sub(usize::from(m)).min(SIDE_ROOM)
}

// A row and column j, which the leanings have no room for, are at odds: such a column has 0, but one past the last is passed over.
fn at_odds_past(row: u8, j: usize) -> bool
    ensures { result ≡ ltb j side_room and different row 0 }
{
    j < SIDE_ROOM && differ(row, 0)
}

// No column entered.
fn no_columns() -> [u8; SIDE_ROOM]
    ensures { result ≡ no_columns }
{
    [0u8; SIDE_ROOM]
}

// Every column free.
// Kept: a mate is row + 1, and 0 for a free column, as the specification's search has it: `with_mate` and `mates_in` say it in these numbers.
fn no_mates() -> [u16; SIDE_ROOM]
    ensures { result ≡ no_columns }
{
    [0u16; SIDE_ROOM]
}

impl Ground<'_> {
    // Row i and column j lean to different parts; a column past the last is passed over.
    fn at_odds(&self, i: u16, j: u16) -> bool
        ensures { result ≡ at_odds self.now.lean.now self.now.m i j }
    {
        let lean = self.lean;
        let m = self.m;
        let row = byte_at(lean, usize::from(i));
        let column = usize::from(j);
        if column < columns_held(m) {
            return differ(row, lean[usize::from(m) + column]);
        }
        at_odds_past(row, column)
    }

    // The number of the first nonzero of row i.
    fn first_of(&self, i: u16) -> u16
        ensures { result ≡ get_or self.now.starts.now i 0 }
    {
        let starts = self.starts;
        starts.get(usize::from(i)).copied().unwrap_or(0)
    }

    // The number after that of its last nonzero; 0 for a row past the last.
    fn end_of(&self, i: u16) -> u16
        ensures { (result ≡ get_or self.now.starts.now (i + 1) 0) × (side_room ≤ i → result ≡ 0) }
    {
        let starts = self.starts;
        starts.get(usize::from(i) + 1).copied().unwrap_or(0)
    }

    // Row i goes through its nonzeros, and visits each column that it is at odds with, until one is found for it.
    #[cycle(column_visit_row_visit)]
    fn row_visit(&self, i: u16, seen: &mut [u8; SIDE_ROOM], mate: &mut [u16; SIDE_ROOM]) -> Visit
        requires { (i < side_room) × (length seen.old ≡ side_room) × (length mate.old ≡ side_room) }
        ensures { RowVisits (ground_in self.now) i seen.old mate.old result seen.new mate.new }
    {
        let first = self.first_of(i);
        let end = self.end_of(i);
        let mut looks: u64 = 0;
        for t in first..end {
            let j = column_of(self.list, t);
            if self.at_odds(i, j) {
                let visit = self.column_visit(j, i, seen, mate);
                looks += visit.looks;
                if visit.found {
                    return Visit { found: true, looks };
                }
            }
        }
        Visit {
            found: false,
            looks,
        }
    }

    // The conflict of row i and column j is met, which is a look. The column gets row i if it is free, or if its own row finds another column.
    #[cycle(column_visit_row_visit)]
    fn column_visit(
        &self,
        j: u16,
        i: u16,
        seen: &mut [u8; SIDE_ROOM],
        mate: &mut [u16; SIDE_ROOM],
    ) -> Visit
        requires { (j < side_room) × (i < side_room) × (length seen.old ≡ side_room) × (length mate.old ≡ side_room) }
        ensures { ColumnVisits (ground_in self.now) j i seen.old mate.old result seen.new mate.new }
    {
        let column = usize::from(j);
        if seen[column] != 0 {
            return Visit {
                found: false,
                looks: 1, // entered before, and a look all the same
            };
        }
        seen[column] = 1;
        let held = mate[column];
        if held == 0 {
            mate[column] = i + 1;
            return Visit {
                found: true,
                looks: 1,
            };
        }
        let r = (held - 1) % (SIDE_ROOM as u16);
        let visit = self.row_visit(r, seen, mate);
        let looks = visit.looks + 1;
        if visit.found {
            mate[column] = i + 1;
            return Visit { found: true, looks };
        }
        Visit {
            found: false,
            looks,
        }
    }

    // Row i has a conflict. One that leans to no part has none.
    #[tactic(auto, using(crate::proofs::Visits::Row::row_passed))]
    fn has_conflict(&self, i: u16) -> bool
        ensures { result ≡ not (is_empty (columns_in (ground_in self.now) i)) }
    {
        let lean = self.lean;
        if byte_at(lean, usize::from(i)) > 1 {
            return false;
        }
        let first = self.first_of(i);
        let end = self.end_of(i);
        for t in first..end {
            if self.at_odds(i, column_of(self.list, t)) {
                return true;
            }
        }
        false
    }

    // A start from row i. A row without conflicts is passed over, before there is an array of columns entered.
    fn start_from(&self, i: u16, mate: &mut [u16; SIDE_ROOM]) -> Visit
        requires { length mate.old ≡ side_room }
        ensures { Starts (ground_in self.now) i mate.old result mate.new }
    {
        if self.has_conflict(i) {
            let mut seen = no_columns();
            return self.row_visit(i, &mut seen, mate);
        }
        Visit {
            found: false,
            looks: 0,
        }
    }

    /// The matching of the conflicts: a start from each row in turn.
    pub fn matching_of(&self) -> Matching
        ensures { (result ≡ matching_in (ground_in self.now)) × (result.size < 65536) }
    {
        let mut mate = no_mates();
        let mut size: u64 = 0;
        let mut looks: u64 = 0;
        for i in 0..self.m {
            let visit = self.start_from(i, &mut mate);
            size += u64::from(visit.found);
            looks += visit.looks;
        }
        Matching { size, looks }
    }
}
