// The types of the code, as document 01 names them. Crates above compute with these types, and specs/ says what they must
// compute; the one function here gives a refusal's word its number.
#![tactic(auto)]

ghost use Rattle.std.specs.Prelude.{◌≡◌};

use trail::Trail;

pub mod limits;

// A part of a split: processor 0 or processor 1.
#[derive(Clone, Copy, PartialEq, Eq)]
pub enum Part {
    Zero,
    One,
}

// A mark of a line: all its nonzeros go to a part, or it is cut.
#[derive(Clone, Copy, PartialEq, Eq)]
pub enum Mark {
    To(Part),
    Cut,
}

// What a marking makes of a line: it is marked, with its mark, or unmarked and in one of three conditions.
#[derive(Clone, Copy)]
pub enum Condition {
    Marked(Mark),
    Torn,
    Leaning(Part),
    Untouched,
}

// The words of the refusal table.
#[derive(Clone, Copy, PartialEq, Eq)]
pub enum Word {
    Banner,
    SizeLine,
    EntryForm,
    TooBig,
    OffMatrix,
    Repeated,
    Count,
    BadPart,
    ShortBuffer,
    Order,
    Cap,
    NoSplit,
    Budget,
    State,
    NotSquare,
    AboveDiagonal,
    SplitNumber,
}

// The table's number for each word.
impl From<Word> for u64 {
    ghost use Rattle.model.specs.Refusal.{refusal_number};

    ghost from_gives = { λ word number. number ≡ refusal_number word };

    fn from(word: Word) -> u64 {
        match word {
            Word::Banner => 1,
            Word::SizeLine => 2,
            Word::EntryForm => 3,
            Word::TooBig => 4,
            Word::OffMatrix => 5,
            Word::Repeated => 6,
            Word::Count => 7,
            Word::BadPart => 8,
            Word::ShortBuffer => 9,
            Word::Order => 10,
            Word::Cap => 11,
            Word::NoSplit => 12,
            Word::Budget => 13,
            Word::State => 14,
            Word::NotSquare => 15,
            Word::AboveDiagonal => 16,
            Word::SplitNumber => 17,
        }
    }
}

/// A refusal: a word of the refusal table, and its place, counted from 0, which is 0 where the table gives none.
#[derive(Clone, Copy, PartialEq, Eq)]
pub struct Refusal {
    pub word: Word,
    pub place: u64,
}

// The caps of the two parts: cap 0 and cap 1.
#[derive(Clone, Copy)]
pub struct Caps {
    pub cap0: u64,
    pub cap1: u64,
}

// The running search: the record of the walk, with the sum of the looks of its tries. Without `found` there is no best marking.
// Kept: `found` stands beside `best`, since search::run and search::show promise a refusal of any pair that a caller hands in.
#[derive(Clone, Copy, PartialEq, Eq)]
pub struct Search {
    pub m: u64,
    pub n: u64,
    pub nonzeros: u64,
    pub cap0: u64,
    pub cap1: u64,
    pub tries: u64,
    pub looks: u64,
    pub best_count: u64,
    pub found: bool,
    pub best: Trail,
    pub complete: bool,
    pub trail: Trail,
}

/// The cap from a percentage, and the rest that was cut off, in hundredths.
#[derive(Clone, Copy, PartialEq, Eq)]
pub struct Capped {
    pub cap: u64,
    pub rest: u64,
}

/// How an accepted run ended, with the looks since the fresh search.
#[derive(Clone, Copy, PartialEq, Eq)]
pub enum Ended {
    Complete { looks: u64 },
    Stopped { looks: u64 },
}

/// A run's answer, and the search after it; where it is refused, the search that was given.
#[derive(Clone, Copy, PartialEq, Eq)]
pub struct Ran {
    pub answer: Result<Ended, Refusal>,
    pub search: Search,
}

/// What an accepted showing gives: the volume of the split shown and the floor, or "none yet" and the floor.
#[derive(Clone, Copy, PartialEq, Eq)]
pub enum Shown {
    Split { volume: u64, floor: u64 },
    NoneYet { floor: u64 },
}
