// The first line of the input: percent E budget B.
ghost use Rattle.std.specs.Prelude.{◌≡◌};
ghost use Rattle.answering.specs.FirstLine.{command_of};

use crate::Command;
use pattern::reading::byte_at;
use scanning::Stretch;
use scanning::lines::stretch_end;
use scanning::words::{number_between, same_word};

// The command that the first line gives, where the line is as it must be.
#[tactic(auto, using(scanning::proofs::Joins::joins, crate::proofs::FirstLine::percent_ends, crate::proofs::FirstLine::budget_ends), unfolding(crate::specs::FirstLine::command_of, crate::specs::FirstLine::command_by))]
pub(crate) fn command_of(input: &[u8]) -> Option<Command>
    ensures { result ≡ command_of input.now }
{
    let stop = stretch_end(input, Stretch::Digits, 8, 18);
    let from = stop + 8;
    let end = stretch_end(input, Stretch::Digits, from, from + 10);
    let first = same_word(input, 0, 8, false, b"percent ");
    let second = same_word(input, stop, from, false, b" budget ");
    if !(first && second && byte_at(input, end) == b'\n') {
        return None;
    }
    Some(Command {
        percent: number_between(input, 8, stop)?,
        budget: number_between(input, from, end)?,
        next: end + 1,
    })
}
