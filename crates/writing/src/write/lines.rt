// The line printed where there is no split to write: a refusal, or "none yet".
ghost use Rattle.writing.specs.Written.{Puts};
ghost use Rattle.writing.specs.Lines.{refused_text, none_text};

use super::page::Page;
use model::Word;

// "refused R at P".
#[tactic(auto, using(crate::proofs::Pages::shorts))]
pub fn put_refused(page: &mut [u8], word: Word, place: u64) -> usize
    ensures { Puts page.old 0 (refused_text word place) page.new result }
{
    let mut page = Page::new(page);
    page.put_figure(b"refused ", u64::from(word));
    page.put_bytes(b"at ");
    page.put_number(place, b'\n');
    page.at
}

// "none yet caps C0 C1 rest R tries T floor F".
#[tactic(auto, using(crate::proofs::Pages::shorts, crate::proofs::Pages::adds_then), unfolding(crate::specs::Lines::none_text))]
pub fn put_none(page: &mut [u8], cap0: u64, cap1: u64, rest: u64, tries: u64, floor: u64) -> usize
    ensures { Puts page.old 0 (none_text cap0 cap1 rest tries floor) page.new result }
{
    let mut page = Page::new(page);
    page.put_bytes(b"none yet ");
    page.put_figures(cap0, cap1, rest, tries, floor, b'\n');
    page.at
}
