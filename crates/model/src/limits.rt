// The limits, as the code tests them: specs/Limits.antt has the same numbers, to which every test is proved.

// Rows m and columns n: 1 to this.
pub const LINE_LIMIT: u64 = 300;

// Room for every row, or for every column.
pub const SIDE_ROOM: usize = 300;

// Room for a number at each row, and one more.
pub const SIDE_ENDS: usize = 301;

// Room for a byte at each cell of a matrix.
pub const CELL_ROOM: usize = 90000;

// Room of an array by line: more than any line of an accepted list. As it is a power of two, a line is folded into it by a mask.
pub const LINE_ROOM: usize = 1024;

// Nonzeros N: 0 to this, and at most m × n.
pub const NONZERO_LIMIT: u64 = 4000;

// Room for the part of every nonzero, and for its row and column number.
pub const PART_ROOM: usize = 4000;

pub const LIST_ROOM: usize = 16000;

// Cap: 0 to this.
pub const CAP_LIMIT: u64 = 4000;

// Percentage e: 0 to this.
pub const PERCENT_LIMIT: u64 = 100;

// Budget of a call: 0 to this.
pub const BUDGET_LIMIT: u64 = 1_000_000;

// Tries of a search: at most this.
pub const TRIES_LIMIT: u64 = 10_000_000_000_000;
