// Markings in code: the order of lines, and the marks of lines.
#![tactic(auto)]

pub mod marks;
pub mod order;
pub mod placing;
