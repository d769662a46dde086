// Tables of an accepted list, and the matching of L4.
#![tactic(auto)]

pub mod lower;
pub mod tables;
