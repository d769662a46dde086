// The trail in two levels: the latest marks are digits of one number, and full words of 32 marks each lie below it. Only a method that fills or opens a
// word indexes the array, so that the others cost nothing though they hand the trail back by value.
#![tactic(auto)]

ghost use Rattle.std.specs.Prelude.{true, List, [], ◌∷◌, ◌≡◌, ℕ, ◌+◌, ◌-◌, ◌%◌, ◌≤◌, ◌<◌, length};
ghost use Rattle.counting.specs.Tests.{bit};
ghost use Rattle.trail.specs.Trail.{mark_room, is_part};
ghost use Rattle.model.specs.Walk.{advance};
ghost use Rattle.model.specs.State.{are_marks, trail_of};
ghost use Rattle.packing.specs.Packed.{next_mark, word_marks, ends_cut, Packs};

use trail::{MARK_ROOM, Trail};

// The marks of a full word.
const WORD_MARKS: usize = 32;

// Room for the full words below the latest marks of a longest trail.
pub const WORD_ROOM: usize = 18;

// The top of a trail without marks, whose lowest digit is no mark.
const NO_MARKS: u64 = 3;

// 4 to the power of 31: a top with fewer marks than a word needs no digits above it.
const TOP_ROOM: u64 = 4611686018427387904;

// A marking. The latest 1 to 32 marks are base-4 digits of `top`, the last mark the lowest; the marks before them lie in words of 32. `len` is the number of
// marks, and `parts` the number of marks 0 or 1 among all but the last.
// Kept: an array and a length, as nothing is allocated (docs/DECISIONS.md).
#[derive(Clone, Copy)]
pub struct PackedTrail {
    pub words: [u64; WORD_ROOM],
    pub top: u64,
    pub len: usize,
    pub parts: usize,
}

// 1 for a mark 0 or 1, else 0.
#[tactic(auto, unfolding(counting::specs::Tests::bit))]
fn part(mark: u64) -> usize
    ensures { (result ≡ bit (is_part mark)) × (result ≤ 1) }
{
    usize::from(mark < 2)
}

// The mark that a last mark becomes where it is not cut.
#[tactic(auto, using(crate::proofs::Advancing::nexts))]
fn next_mark(mark: u64, allowed: bool) -> u64
    ensures { result ≡ next_mark mark allowed }
{
    if mark == 0 && allowed { 1 } else { 2 }
}

/// The trail without marks.
pub fn empty() -> PackedTrail
    ensures { Packs result [] }
{
    PackedTrail {
        words: [0; WORD_ROOM],
        top: NO_MARKS,
        len: 0,
        parts: 0,
    }
}

impl PackedTrail {
    /// The last mark.
    #[tactic(auto, using(crate::proofs::Packing::last_read))]
    pub fn last(self) -> u8
        ensures { (x : ℕ) (τ : List ℕ) → Packs self (x ∷ τ) → result ≡ x }
    {
        (self.top % 4) as u8
    }

    /// One mark more; a full trail stays as it is.
    pub fn append(mut self, mark: u8) -> PackedTrail
        ensures { (τ : List ℕ) → Packs self τ → length τ < mark_room → mark ≤ 2 → Packs result (mark ∷ τ) }
    {
        let at = self.len;
        if MARK_ROOM <= at {
            return self;
        }
        if at % WORD_MARKS == 0 {
            return self.append_word(mark);
        }
        self.parts = self.parts.saturating_add(part(self.top % 4));
        self.top = self.top % TOP_ROOM * 4 + u64::from(mark % 4);
        self.len = at + 1;
        self
    }

    // One mark more on a full top, which becomes a word.
    fn append_word(mut self, mark: u8) -> PackedTrail
        requires { self.len < mark_room }
        ensures { (τ : List ℕ) → Packs self τ → self.len % word_marks ≡ 0 → mark ≤ 2 → Packs result (mark ∷ τ) }
    {
        let w = (self.len / WORD_MARKS).saturating_sub(1);
        self.words[w] = self.top;
        self.parts = self.parts.saturating_add(part(self.top % 4));
        self.top = u64::from(mark % 4);
        self.len += 1;
        self
    }

    /// Without its last mark.
    pub fn drop_last(mut self) -> PackedTrail
        ensures { (result.len ≡ self.len - 1) × ((x : ℕ) (τ : List ℕ) → Packs self (x ∷ τ) → Packs result τ) }
    {
        let at = self.len.saturating_sub(1);
        if at % WORD_MARKS == 0 {
            return self.drop_word();
        }
        self.top /= 4;
        self.len = at;
        self.parts = self.parts.saturating_sub(part(self.top % 4));
        self
    }

    // Without its last mark, the only one of its top: the last word becomes the top.
    fn drop_word(mut self) -> PackedTrail
        ensures { (result.len ≡ self.len - 1) × ((x : ℕ) (τ : List ℕ) → Packs self (x ∷ τ) → length τ % word_marks ≡ 0 → Packs result τ) }
    {
        let at = self.len.saturating_sub(1);
        let w = (at / WORD_MARKS).saturating_sub(1);
        self.len = at;
        self.top = NO_MARKS;
        if 0 < at && w < WORD_ROOM {
            self.top = self.words[w];
            self.parts = self.parts.saturating_sub(part(self.top % 4));
        }
        self
    }

    /// With its last mark advanced, where that is not cut.
    pub fn raise(mut self, first: bool) -> PackedTrail
        ensures { (x : ℕ) (τ : List ℕ) → Packs self (x ∷ τ) → x < 2 → Packs result (advance first (x ∷ τ)) }
    {
        let allowed = 0 < self.parts || first;
        self.top = self.top / 4 * 4 + next_mark(self.top % 4, allowed);
        self
    }

    // Its last mark is cut.
    #[tactic(auto, using(counting::proofs::Joined::and_passed, counting::proofs::Joined::and_fails_left))]
    fn ends_cut(self) -> bool
        ensures { result ≡ ends_cut self }
    {
        0 < self.len && 1 < self.top % 4
    }

    // Advanced: last mark 0 becomes 1 if that may come first or some earlier mark is 0 or 1, else cut; 1 becomes cut; cut is dropped and the
    // mark before it advances.
    pub fn advance(mut self, first: bool) -> PackedTrail
        ensures { (τ : List ℕ) → Packs self τ → Packs result (advance first τ) }
    {
        // Kept: marks are dropped while the last one is cut; no range counts them.
        while self.ends_cut() {
            self = self.drop_last();
        }
        if self.len == 0 {
            return self;
        }
        self.raise(first)
    }

    /// Its marks as bytes, with 0 past its length. A trail that is too long is left out.
    pub fn unpacked(mut self) -> Trail
        ensures { (τ : List ℕ) → Packs self τ → result ≡ trail_of τ }
    {
        let len = self.len;
        let mut marks = [0; MARK_ROOM];
        if MARK_ROOM < len {
            return Trail { marks, len: 0 };
        }
        for at in (0..len).rev() {
            marks[at] = self.last();
            self = self.drop_last();
        }
        Trail { marks, len }
    }
}

/// A trail of bytes, packed. One that is too long is left out.
pub fn packed(trail: Trail) -> PackedTrail
    ensures { (τ : List ℕ) → length τ ≤ mark_room → are_marks τ ≡ true → trail ≡ trail_of τ → Packs result τ }
{
    let mut t = empty();
    if MARK_ROOM < trail.len {
        return t;
    }
    for mark in &trail.marks[..trail.len] {
        t = t.append(*mark);
    }
    t
}
