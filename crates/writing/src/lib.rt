// Writing a split as a Matrix Market text.
#![tactic(auto)]

pub mod checks;
pub mod write;

// The figures of the comment: rest is 0 for caps given directly, and complete is 0 for "stopped" and anything else for "complete".
// Kept: `complete` is a number, as the contract of `write` takes any that a caller hands in.
#[derive(Clone, Copy)]
pub struct Figures {
    pub volume: u64,
    pub cap0: u64,
    pub cap1: u64,
    pub rest: u64,
    pub tries: u64,
    pub floor: u64,
    pub complete: u64,
}
