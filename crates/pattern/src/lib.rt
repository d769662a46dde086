// The list of nonzeros: reading it, its checks, the cap from a percentage, and volume and load of a split.
#![tactic(auto)]

pub mod cap;
pub mod checks;
pub mod matrix;
pub mod measures;
pub mod reading;
pub mod room;
pub mod splits;
