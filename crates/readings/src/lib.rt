// A text along with the offset of its next unread byte, read from line to line.
#![tactic(auto)]

ghost use Rattle.std.specs.Prelude.{◌≡◌, length};
ghost use Rattle.scanning.specs.Lines.{line_next, size_line_at};

use scanning::lines::{is_skipped, line_next};

// A text, and the offset of its next unread byte.
#[derive(Clone, Copy)]
pub struct Reading<'a> {
    pub text: &'a [u8],
    pub at: usize,
}

impl<'a> Reading<'a> {
    /// The reading after its next line.
    pub fn next_line(self) -> Reading<'a>
        ensures { result ≡ (record { text = self.entry.text; at = line_next self.entry.text.now self.entry.at }) }
    {
        Reading {
            text: self.text,
            at: line_next(self.text, self.at),
        }
    }
}

// The size line of a text and the line after it, each by the offset of its first byte.
#[derive(Clone, Copy)]
pub struct SizeLine {
    pub at: usize,
    pub next: usize,
}

// The size line: the first line after the first one that is neither empty nor a comment, or the text's end.
#[tactic(auto, using(scanning::proofs::Scans::skipped_below, scanning::proofs::Scans::next_after, scanning::proofs::Scans::size_on, scanning::proofs::Scans::size_here))]
pub fn size_line(text: &[u8]) -> SizeLine
    ensures { (result.at ≡ size_line_at text.now (length text.now) (line_next text.now 0)) × (result.next ≡ line_next text.now result.at) }
{
    let mut reading = Reading { text, at: 0 }.next_line();
    // Kept: where a line ends is known once it is read; a range with a `break` is no plainer.
    while is_skipped(reading.text, reading.at) {
        reading = reading.next_line();
    }
    SizeLine {
        at: reading.at,
        next: reading.next_line().at,
    }
}
