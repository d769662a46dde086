// Reading a Matrix Market text into a list of nonzeros.
#![tactic(auto)]

use scanning::Field;

pub mod entries;
pub mod giving;
pub mod head;
pub mod read;

// The first line: as it must be or not, F, and symmetric or general.
// Kept: `fine` beside the values, which a Header takes over as they are.
#[derive(Clone, Copy)]
pub struct Banner {
    pub fine: bool,
    pub field: Field,
    pub symmetric: bool,
}

// What stands before the entries: the first line, where the size line is, what it holds, and where the next line is.
// Kept: `fine` and `sized` beside the values, as crate readback's TextSays and SameNonzeros name field, symmetry and numbers of any text's header.
#[derive(Clone, Copy)]
pub struct Header {
    pub fine: bool,
    pub field: Field,
    pub symmetric: bool,
    pub sized: bool,
    pub m: u32,
    pub n: u32,
    pub entries: u32,
    pub at: usize,
    pub next: usize,
}

/// What a text holds: m rows, n columns and N nonzeros, and whether it gives a part for each of them.
#[derive(Clone, Copy)]
pub struct TextRead {
    pub m: u64,
    pub n: u64,
    pub nonzeros: u64,
    pub integer: bool,
}
