// What a marking takes, and the condition of a line.
#![tactic(auto)]

pub mod leaning;
pub mod taking;
