// A pattern's text split: read, capped, opened, run, shown and written.
ghost use Rattle.std.specs.Prelude.{◌≡◌};
ghost use Rattle.model.specs.Split.{both_caps};
ghost use Rattle.model.specs.Calls.{cap_call, open_call, run_call};
ghost use Rattle.writing.specs.Written.{Puts};
ghost use Rattle.answering.specs.Answer.{gives_split, printed_as, line_text, figures_of, search_answer, ran_answer, opened_answer, after_cap, pattern_answer, answer_text};

use crate::first_line::command_of;
use model::limits::{LIST_ROOM, PART_ROOM};
use model::{Capped, Refusal, Search, Shown, Word};
use pattern::cap::cap_from_percent;
use texts::TextRead;
use texts::read::read;
use writing::Figures;
use writing::write::lines::{put_none, put_refused};
use writing::write::write;

// The figures of a search with a split to show.
#[tactic(auto, using(scanning::proofs::Joins::joins), unfolding(crate::specs::Answer::figures_of, model::specs::Calls::complete_number))]
fn figures_of(search: &Search, rest: u64, volume: u64, floor: u64) -> Figures
    ensures { result ≡ figures_of search.now rest volume floor }
{
    Figures {
        volume,
        cap0: search.cap0,
        cap1: search.cap1,
        rest,
        tries: search.tries,
        floor,
        complete: u64::from(search.complete),
    }
}

// Writes a split of the pattern of a text as a text.
fn put_split(text: TextRead, list: &[u8], parts: &[u8], figures: Figures, out: &mut [u8]) -> usize
    ensures { Puts out.old 0 (printed_as (gives_split text.m text.n text.nonzeros list.now parts.now figures) out.old) out.new result }
{
    match write(text.m, text.n, text.nonzeros, list, parts, figures, out) {
        Ok(len) => len as usize,
        Err(refusal) => put_refused(out, refusal.word, refusal.place),
    }
}

// Writes the line of an answer without a split.
#[tactic(auto, using(writing::proofs::Puttings::puts_none), unfolding(crate::specs::Answer::line_text))]
fn put_line(shown: Result<Shown, Refusal>, search: &Search, rest: u64, out: &mut [u8]) -> usize
    ensures { Puts out.old 0 (line_text shown search.now.cap0 search.now.cap1 rest search.now.tries) out.new result }
{
    match shown {
        Ok(Shown::Split { .. }) => 0,
        Ok(Shown::NoneYet { floor }) => {
            put_none(out, search.cap0, search.cap1, rest, search.tries, floor)
        }
        Err(refusal) => put_refused(out, refusal.word, refusal.place),
    }
}

// Shows a search and prints what it shows: the split, or "none yet".
fn put_search(search: Search, rest: u64, text: TextRead, list: &[u8], out: &mut [u8]) -> usize
    ensures { Puts out.old 0 (printed_as (search_answer rest text.m text.n text.nonzeros list.now search) out.old) out.new result }
{
    let mut parts = [0u8; PART_ROOM];
    let shown = search::show(search, text.m, text.n, text.nonzeros, list, &mut parts);
    let Ok(Shown::Split { volume, floor }) = shown else {
        return put_line(shown, &search, rest, out);
    };
    let figures = figures_of(&search, rest, volume, floor);
    put_split(text, list, &parts, figures, out)
}

// Runs a search and prints what it shows.
fn put_run(
    search: Search,
    rest: u64,
    text: TextRead,
    list: &[u8],
    budget: u64,
    out: &mut [u8],
) -> usize
    ensures { Puts out.old 0 (printed_as (ran_answer rest text.m text.n text.nonzeros list.now (run_call search text.m text.n text.nonzeros list.now budget)) out.old) out.new result }
{
    let ran = search::run(search, text.m, text.n, text.nonzeros, list, budget);
    match ran.answer {
        Ok(_) => put_search(ran.search, rest, text, list, out),
        Err(refusal) => put_refused(out, refusal.word, refusal.place),
    }
}

// Opens a search with this cap for both parts, runs it and prints what it shows.
fn put_opening(text: TextRead, list: &[u8], capped: Capped, budget: u64, out: &mut [u8]) -> usize
    ensures { Puts out.old 0 (printed_as (opened_answer capped.rest text.m text.n text.nonzeros list.now (open_call text.m text.n text.nonzeros list.now (both_caps capped.cap)) budget) out.old) out.new result }
{
    match search::open(text.m, text.n, text.nonzeros, list, capped.cap, capped.cap) {
        Ok(fresh) => put_run(fresh, capped.rest, text, list, budget, out),
        Err(refusal) => put_refused(out, refusal.word, refusal.place),
    }
}

// Splits the pattern of a text under a percentage and prints the answer.
fn put_pattern(text: TextRead, list: &[u8], percent: u64, budget: u64, out: &mut [u8]) -> usize
    ensures { Puts out.old 0 (printed_as (after_cap (cap_call text.nonzeros percent) text.m text.n text.nonzeros list.now budget) out.old) out.new result }
{
    match cap_from_percent(text.nonzeros, percent) {
        Ok(capped) => put_opening(text, list, capped, budget, out),
        Err(refusal) => put_refused(out, refusal.word, refusal.place),
    }
}

// Reads a text, splits its pattern and prints the answer.
fn put_text(text: &[u8], percent: u64, budget: u64, out: &mut [u8]) -> usize
    ensures { Puts out.old 0 (printed_as (pattern_answer text.now percent budget) out.old) out.new result }
{
    let mut list = [0u8; LIST_ROOM];
    let mut parts = [0u8; PART_ROOM];
    match read(text, &mut list, &mut parts) {
        Ok(given) => put_pattern(given, &list, percent, budget, out),
        Err(refusal) => put_refused(out, refusal.word, refusal.place),
    }
}

/// Writes the answer to an input, and gives its length; what falls past the end of the output is left out.
#[tactic(auto, using(crate::proofs::FirstLine::command_room))]
pub fn answer(input: &[u8], out: &mut [u8]) -> usize
    ensures { Puts out.old 0 (answer_text input.now out.old) out.new result }
{
    let Some(command) = command_of(input) else {
        return put_refused(out, Word::EntryForm, 0);
    };
    let text = &input[command.next..];
    put_text(
        text,
        u64::from(command.percent),
        u64::from(command.budget),
        out,
    )
}
