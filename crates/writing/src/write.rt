// Writing a split: the parts of its text, each added to a page, and the text as a whole.
// Kept: numbers and list are as a caller hands them in, of any size, of which the checks refuse some: the signatures that callers have stay.
ghost use Rattle.std.specs.Prelude.{◌≡◌, ◌^◌, ◌<◌, length};
ghost use Rattle.writing.specs.Written.{Puts, figure_text, caps_text, figures_text, entry_text, entries_text, ending_text, comment_text, sizes_text, head_text, body_text, text_of};
ghost use Rattle.writing.specs.Writing.{length_answer, text_out, write_call, write_out, write_reply, write_replies};

use crate::Figures;
use crate::checks::write_verdict;
use model::{Refusal, Word};
use page::Page;
use pattern::checks::refuse_if;
use pattern::matrix::Matrix;
use pattern::reading::byte_at;

pub mod lines;
mod page;

impl Page<'_> {
    ghost use Rattle.writing.specs.Page.{Adds};

    // A figure: its label, its number, a space.
    #[tactic(auto, using(crate::proofs::Pages::shorts))]
    fn put_figure(&mut self, label: &[u8], n: u64)
        requires { (self.old.at < 2 ^ 31) × (length label.now < 100) }
        ensures { Adds self.old (figure_text label.now n) self.new }
    {
        self.put_bytes(label);
        self.put_number(n, b' ');
    }

    // "caps C0 C1" and a space.
    #[tactic(auto, using(crate::proofs::Pages::shorts))]
    fn put_caps(&mut self, cap0: u64, cap1: u64)
        requires { self.old.at < 2 ^ 30 }
        ensures { Adds self.old (caps_text cap0 cap1) self.new }
    {
        self.put_figure(b"caps ", cap0);
        self.put_number(cap1, b' ');
    }

    // "caps C0 C1 rest R tries T floor F" and the byte after it, as the comment and the line "none yet" say it.
    #[tactic(auto, using(crate::proofs::Pages::shorts))]
    fn put_figures(&mut self, cap0: u64, cap1: u64, rest: u64, tries: u64, floor: u64, byte: u8)
        requires { self.old.at < 2 ^ 30 }
        ensures { Adds self.old (figures_text cap0 cap1 rest tries floor byte) self.new }
    {
        self.put_caps(cap0, cap1);
        self.put_figure(b"rest ", rest);
        self.put_figure(b"tries ", tries);
        self.put_bytes(b"floor ");
        self.put_number(floor, byte);
    }

    // The end of the comment: "stopped" or "complete".
    #[tactic(auto, using(scanning::proofs::Joins::joins, crate::proofs::Pages::shorts), unfolding(crate::specs::Written::ending_text))]
    fn put_ending(&mut self, complete: u64)
        requires { self.old.at < 2 ^ 32 }
        ensures { Adds self.old (ending_text complete) self.new }
    {
        if complete == 0 {
            self.put_bytes(b"stopped\n");
        } else {
            self.put_bytes(b"complete\n");
        }
    }

    // The comment.
    #[tactic(auto, using(crate::proofs::Pages::shorts))]
    fn put_comment(&mut self, figures: Figures)
        requires { self.old.at < 2 ^ 29 }
        ensures { Adds self.old (comment_text figures) self.new }
    {
        self.put_figure(b"% volume ", figures.volume);
        self.put_figures(
            figures.cap0,
            figures.cap1,
            figures.rest,
            figures.tries,
            figures.floor,
            b' ',
        );
        self.put_ending(figures.complete);
    }

    // The size line, or an entry.
    #[tactic(auto, using(crate::proofs::Pages::shorts))]
    fn put_sizes(&mut self, m: u64, n: u64, nonzeros: u64)
        requires { self.old.at < 2 ^ 31 }
        ensures { Adds self.old (sizes_text m n nonzeros) self.new }
    {
        self.put_number(m, b' ');
        self.put_number(n, b' ');
        self.put_number(nonzeros, b'\n');
    }

    // The entry of nonzero t.
    #[tactic(auto, unfolding(crate::specs::Written::entry_text))]
    fn put_entry(&mut self, matrix: &Matrix<'_>, parts: &[u8], t: u16)
        requires { self.old.at < 2 ^ 31 }
        ensures { Adds self.old (entry_text matrix.now.list.now parts.now t) self.new }
    {
        let row = u64::from(matrix.row_of(t)) + 1;
        let column = u64::from(matrix.column_of(t)) + 1;
        let part = u64::from(byte_at(parts, usize::from(t))) + 1;
        self.put_sizes(row, column, part);
    }

    // The entries, in number order.
    fn put_entries(&mut self, matrix: &Matrix<'_>, parts: &[u8])
        requires { self.old.at < 2 ^ 30 }
        ensures { Adds self.old (entries_text matrix.now.list.now parts.now matrix.now.nonzeros) self.new }
    {
        for t in 0..matrix.nonzeros {
            self.put_entry(matrix, parts, t);
        }
    }

    // First line and comment.
    #[tactic(auto, using(crate::proofs::Pages::shorts))]
    fn put_head(&mut self, figures: Figures)
        requires { self.old.at < 2 ^ 28 }
        ensures { Adds self.old (head_text figures) self.new }
    {
        self.put_bytes(b"%%MatrixMarket matrix coordinate integer general\n");
        self.put_comment(figures);
    }

    // Size line and entries.
    #[tactic(auto, using(crate::proofs::Pages::shorts))]
    fn put_body(&mut self, matrix: &Matrix<'_>, parts: &[u8])
        requires { self.old.at < 2 ^ 29 }
        ensures { Adds self.old (body_text matrix.now.m matrix.now.n matrix.now.nonzeros matrix.now.list.now parts.now) self.new }
    {
        self.put_sizes(
            u64::from(matrix.m),
            u64::from(matrix.n),
            u64::from(matrix.nonzeros),
        );
        self.put_entries(matrix, parts);
    }
}

// The whole text, from the start of a page on, and its length.
#[tactic(auto, using(crate::proofs::Pages::shorts))]
fn put_text(bytes: &mut [u8], matrix: &Matrix<'_>, parts: &[u8], figures: Figures) -> usize
    ensures { Puts bytes.old 0 (text_of matrix.now.m matrix.now.n matrix.now.nonzeros matrix.now.list.now parts.now figures) bytes.new result }
{
    let mut page = Page::new(bytes);
    page.put_head(figures);
    page.put_body(matrix, parts);
    page.at
}

// The text where the output has room for it: 9 otherwise. It is measured on another page.
#[tactic(auto, using(scanning::proofs::Joins::joins), unfolding(crate::specs::Writing::length_answer, crate::specs::Writing::text_out))]
fn write_text(
    matrix: &Matrix<'_>,
    parts: &[u8],
    figures: Figures,
    page: &mut [u8],
    out: &mut [u8],
) -> Result<u64, Refusal>
    ensures answer { result ≡ length_answer (text_of matrix.now.m matrix.now.n matrix.now.nonzeros matrix.now.list.now parts.now figures) out.old }
    ensures out { out.new ≡ text_out (text_of matrix.now.m matrix.now.n matrix.now.nonzeros matrix.now.list.now parts.now figures) out.old }
{
    let needed = put_text(page, matrix, parts, figures);
    refuse_if(out.len() < needed, Word::ShortBuffer, 0)?;
    Ok(put_text(out, matrix, parts, figures) as u64)
}

/// Writes a split as a text, and answers the text's length in bytes; bytes of the output past it stay. Refused with 4, 9, 17, 5, 10 and 8 for list
/// and parts, and last with 9 for an output that is too short; a refusal leaves every byte of it.
#[tactic(auto, using(crate::proofs::Answers::write_limits))]
pub fn write(
    m: u64,
    n: u64,
    nonzeros: u64,
    list: &[u8],
    parts: &[u8],
    figures: Figures,
    out: &mut [u8],
) -> Result<u64, Refusal>
    ensures answer { result ≡ write_call m n nonzeros list.now parts.now figures out.old }
    ensures out { out.new ≡ write_out m n nonzeros list.now parts.now figures out.old }
    ensures reply { write_reply result ≡ write_replies m n nonzeros list.now parts.now figures out.old }
{
    write_verdict(m, n, nonzeros, list, parts)?;
    let matrix = Matrix {
        m: m as u16,
        n: n as u16,
        nonzeros: nonzeros as u16,
        list,
    };
    let mut page = [0u8; 1];
    write_text(&matrix, parts, figures, &mut page, out)
}
