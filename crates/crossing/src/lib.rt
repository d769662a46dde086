// Tables of a pattern: the crossing lines of each line, and the line at each place of the order.
#![tactic(auto)]

pub mod laying;
pub mod ordering;
pub mod starting;

// Room for the two lines of every nonzero.
pub const CROSS_ROOM: usize = 8000;
