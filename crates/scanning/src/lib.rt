// Matrix Market texts below the level of what a line means: byte classes, lines, words, numbers, and checks as values.
#![tactic(auto)]

pub mod classes;
pub mod lines;
pub mod reals;
pub mod tests;
pub mod words;

// The class of a byte.
#[derive(Clone, Copy, PartialEq, Eq)]
pub enum Class {
    Digit,
    Blank,
    Letter,
    Percent,
    LineEnd,
    Other,
}

// A stretch of bytes: up to the line's end, of blanks, of anything but blanks, or of digits.
#[derive(Clone, Copy)]
pub enum Stretch {
    Line,
    Blanks,
    Nonblanks,
    Digits,
}

// The field of a text: what its entries have beside row and column, nothing, a part or a real value.
#[derive(Clone, Copy, PartialEq, Eq)]
pub enum Field {
    Pattern,
    Integer,
    Real,
}

// The next word of a line: where it starts and where it stops.
#[derive(Clone, Copy)]
pub struct Span {
    pub from: usize,
    pub stop: usize,
}

// The next word of a line as a number, where it is one, and where it stops.
#[derive(Clone, Copy)]
pub struct Number {
    pub value: Option<u32>,
    pub stop: usize,
}

// The numbers of a line; where it has no third number, that is 1.
#[derive(Clone, Copy)]
pub struct Numbers {
    pub first: u32,
    pub second: u32,
    pub third: u32,
}
