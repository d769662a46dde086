// Texts and marks laid out in a page.
ghost use Rattle.std.specs.Prelude.{◌≡◌, take};
ghost use Rattle.testing.specs.Laid.{place_after, place_past, laid, mark_of, marks_laid};

use pattern::reading::put;

// The first bytes of a page, or all of a shorter one.
pub fn first(page: &[u8], len: usize) -> &[u8]
    ensures { result.now ≡ take len page.now }
{
    &page[..len.min(page.len())]
}

// The place after another, up to a million.
#[tactic(auto, unfolding(counting::specs::Tests::pick))]
fn place_after(at: usize) -> usize
    ensures { result ≡ place_after at }
{
    if at < 1_000_000 { at + 1 } else { at }
}

// Bytes laid out in a page from a place on, and the place after them. What falls past the page's end is left out.
pub fn lay(page: &mut [u8], at: usize, bytes: &[u8]) -> usize
    ensures { (result ≡ place_past at bytes.now)
        × (page.new ≡ laid page.old at bytes.now) }
{
    let mut next = at;
    for byte in bytes {
        put(page, next, *byte);
        next = place_after(next);
    }
    next
}

// The mark that a letter stands for: 0, 1, c for cut, any other letter for a byte that is no mark.
#[tactic(auto, unfolding(counting::specs::Tests::pick))]
fn mark_of(letter: u8) -> u8
    ensures { result ≡ mark_of letter }
{
    match letter {
        b'0' => 0,
        b'1' => 1,
        b'c' => 2,
        _ => 3,
    }
}

// The marks of letters, laid out from a page's start on.
pub fn lay_marks(page: &mut [u8], letters: &[u8])
    ensures { page.new ≡ marks_laid page.old 0 letters.now }
{
    for (i, letter) in letters.iter().enumerate() {
        put(page, i, mark_of(*letter));
    }
}
