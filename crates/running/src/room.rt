// Room of the arrays that are kept.

// For each part a number for each line.
pub(crate) const BY_ROOM: usize = 2048;

// For each part a number for each weight of a line, 0 to 300, and then for each part a number for each line.
pub(crate) const TALLY_ROOM: usize = 2650;

// Where the numbers for each line begin: how many of its crossing lines lean to 0, then to 1.
pub(crate) const NEAR_PLACE: usize = 602;

// The sums that are tied to the kinds of lines.
pub(crate) const SUM_ROOM: usize = 6;

// Places of the sums, after the untaken nonzeros of the lines that lean to 0 and to 1: nonzeros of two lines that lean to 0, then to 1,
// torn lines, and conflicts.
pub(crate) const BOTH_PLACE: usize = 2;

pub(crate) const TORN_PLACE: usize = 4;

pub(crate) const CONFLICTS_PLACE: usize = 5;

// D0, D1 and the number of cut lines.
pub(crate) const LOAD_ROOM: usize = 3;
