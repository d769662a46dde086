// Lines of a text, by the offset of their first byte. Past the end of a text every byte is 0.
ghost use Rattle.std.specs.Prelude.{◌≡◌};
ghost use Rattle.scanning.specs.Lines.{stretches_at, stretch_end, line_stop, has_return, line_end, line_next, empty_line, is_comment, passed_over, skipped};

use crate::classes::{class_of, stretches_over};
use crate::{Class, Stretch};
use pattern::reading::byte_at;

// A stretch goes on over the byte at a place.
#[tactic(auto, unfolding(crate::specs::Lines::stretches_at))]
fn stretches_at(text: &[u8], stretch: Stretch, at: usize) -> bool
    ensures { result ≡ stretches_at stretch text.now at }
{
    stretches_over(stretch, class_of(byte_at(text, at)))
}

// Where a stretch that starts at a place ends, with `stop` as its end at the latest.
#[tactic(auto, using(crate::proofs::Scans::stretch_here, crate::proofs::Scans::stretch_on, crate::proofs::Scans::stretch_over))]
pub fn stretch_end(text: &[u8], stretch: Stretch, at: usize, stop: usize) -> usize
    ensures { result ≡ stretch_end stretch text.now at stop }
{
    for i in at..stop {
        if !stretches_at(text, stretch, i) {
            return i;
        }
    }
    at.max(stop)
}

// Where the line that starts at a place meets its LF, or the text's end.
#[tactic(auto, using(crate::proofs::Joins::joins), unfolding(crate::specs::Lines::line_stop))]
fn line_stop(text: &[u8], at: usize) -> usize
    ensures { result ≡ line_stop text.now at }
{
    stretch_end(text, Stretch::Line, at, text.len())
}

// A CR stands just before the LF of the line that starts at a place.
#[tactic(auto, using(crate::proofs::Joins::joins), unfolding(crate::specs::Lines::has_return))]
fn has_return(text: &[u8], at: usize, stop: usize) -> bool
    ensures { result ≡ has_return text.now at stop }
{
    stop < text.len() && at < stop && text[stop - 1] == b'\r'
}

// Where a line ends, once the CR just before its LF is dropped.
#[tactic(auto, using(crate::proofs::Joins::joins, crate::proofs::Scans::return_after), unfolding(crate::specs::Lines::line_end))]
pub fn line_end(text: &[u8], at: usize) -> usize
    ensures { result ≡ line_end text.now at }
{
    let stop = line_stop(text, at);
    if has_return(text, at, stop) {
        stop - 1
    } else {
        stop
    }
}

// The offset of the next line's first byte.
#[tactic(auto, using(crate::proofs::Joins::joins), unfolding(crate::specs::Lines::line_next))]
pub fn line_next(text: &[u8], at: usize) -> usize
    ensures { result ≡ line_next text.now at }
{
    let stop = line_stop(text, at);
    if stop < text.len() { stop + 1 } else { stop }
}

// Nothing but blanks.
#[tactic(auto, using(crate::proofs::Joins::joins), unfolding(crate::specs::Lines::empty_line))]
fn is_empty(text: &[u8], at: usize) -> bool
    ensures { result ≡ empty_line text.now at }
{
    let end = line_end(text, at);
    stretch_end(text, Stretch::Blanks, at, end) == end
}

// A comment: its very first byte is a percent sign.
#[tactic(auto, unfolding(crate::specs::Lines::is_comment))]
fn is_comment(text: &[u8], at: usize) -> bool
    ensures { result ≡ is_comment text.now at }
{
    class_of(byte_at(text, at)) == Class::Percent
}

// A line that is passed over: an empty one, and a comment where comments are allowed.
#[tactic(auto, using(crate::proofs::Joins::joins))]
pub fn is_passed_over(text: &[u8], at: usize, comments: bool) -> bool
    ensures { result ≡ passed_over comments text.now at }
{
    is_empty(text, at) || comments && is_comment(text, at)
}

// A line that is skipped before the size line: an empty one or a comment.
#[tactic(auto, using(crate::proofs::Joins::joins), unfolding(crate::specs::Lines::skipped))]
pub fn is_skipped(text: &[u8], at: usize) -> bool
    ensures { result ≡ skipped text.now at }
{
    at < text.len() && is_passed_over(text, at, true)
}
