// What the test programs have in common: cases read from their input, printing, texts laid out in a page, and bytes compared.
#![tactic(auto)]

pub mod cases;
pub mod comparing;
pub mod laying;
pub mod patterns;
pub mod saying;
pub mod searches;
pub mod unfailing;

// How the bytes of a field are written: as letters, or as numbers with one letter between two of them, which are bytes, or row and column
// numbers of two bytes each, lowest first.
#[derive(Clone, Copy)]
pub enum Kind {
    Text,
    Numbers,
    Lines,
}

/// What a field gives, a number or how many bytes, and where the next field starts.
#[derive(Clone, Copy)]
pub struct Field {
    pub value: u64,
    pub next: usize,
}
