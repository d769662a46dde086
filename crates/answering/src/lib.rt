// The program's answer: from the bytes of its input to the bytes that it prints.
#![tactic(auto)]

pub mod first_line;
pub mod printing;
pub mod splitting;

// A first line as it must be: E and B, and where the text starts.
#[derive(Clone, Copy)]
pub struct Command {
    pub percent: u32,
    pub budget: u32,
    pub next: usize,
}

// Bytes that are read: a first line of up to 64, a text at its limit, and one more, which tells a longer text.
pub const INPUT_ROOM: usize = 65601;

// Bytes that have room for every answer.
pub const OUTPUT_ROOM: usize = 65536;

// What the program prints: the first len bytes of its output.
// Kept: an array and a length, as nothing is allocated (docs/DECISIONS.md).
#[derive(Clone, Copy)]
pub struct Printed {
    pub bytes: [u8; OUTPUT_ROOM],
    pub len: usize,
}
