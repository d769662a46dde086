// The state of a search: how its struct holds the record of the walk, and when refusal 14 is given.
#![tactic(auto)]

pub mod checking;
mod fine;
pub mod holding;
pub mod legal;
pub mod lines;
