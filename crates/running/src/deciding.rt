// A try judged by what is kept: whether the marking with one mark more is valid, and whether the bound is below the best count.
ghost use Rattle.std.specs.Prelude.{true, ◌≡◌, ◌≤◌, ◌<◌, min, get_or};
ghost use Rattle.model.specs.Limits.{line_room};
ghost use Rattle.model.specs.Pattern.{Pattern, Inside, lines};
ghost use Rattle.model.specs.Marking.{Marking, unmarked, valid};
ghost use Rattle.model.specs.Bound.{falling, strikes, bound};
ghost use Rattle.model.specs.Matching.{looks};
ghost use Rattle.pattern.specs.Matrix.{pattern_in};
ghost use Rattle.keeping.specs.Tied.{weight_room, tally_place};
ghost use Rattle.keeping.specs.Kept.{Placeable, marking_with};
ghost use Rattle.judging.specs.Bounds.{cap_at, struck_from, bound_from};

use crate::kept::Kept;
use crate::room::{BOTH_PLACE, CONFLICTS_PLACE, TALLY_ROOM, TORN_PLACE};
use crate::tables::Crossed;
use bound::lower::matched_of;
use matching::augmenting::Ground;
use model::Caps;
use model::limits::{LINE_ROOM, SIDE_ENDS};

// The least of a count and the bound of a marking, and the looks of its matching.
#[derive(Clone, Copy)]
pub(crate) struct Judged {
    pub least: u64,
    pub looks: u64,
}

// The cap of a part.
fn cap_of(caps: Caps, p: usize) -> u64
    ensures { result ≡ cap_at caps p }
{
    if p == 0 { caps.cap0 } else { caps.cap1 }
}

// Lines that lean to p struck, most untaken nonzeros first, until at most `room` are left of s: the number struck. Lines of one weight are
// struck at once.
fn strike(tally: &[u16; TALLY_ROOM], p: usize, top: usize, s: usize, room: usize) -> usize
    requires { (p < 2) × (top < weight_room) }
    ensures { result ≡ strikes (falling (λ x. get_or tally.now (tally_place p x) 0) top) s room }
{
    if s <= room {
        return 0;
    }
    let mut over = s - room;
    let mut struck: usize = 0;
    let mut weight = top + 1;
    // Kept: a loop that goes down and ends at the first weight that suffices carries three numbers on; a range is no plainer.
    while 0 < weight {
        weight = weight - 1;
        let lines = usize::from(tally[SIDE_ENDS * p + weight]);
        let all = lines * weight;
        if over <= all {
            return struck + (over + weight - 1) / weight;
        }
        struck = struck + lines;
        over = over - all;
    }
    struck
}

impl Kept {
    ghost use Rattle.running.specs.Kept.{Keeps, KeepsOn};
    ghost use Rattle.running.specs.Judging.{Topped, Judgeable};

    // Line l, which is unmarked, can get mark p: the marking with it is valid.
    pub(crate) fn is_fit(&self, l: usize, p: u8, caps: Caps) -> bool
        requires { l < line_room }
        ensures { (P : Pattern) (μ : Marking) → Inside P → Keeps P μ self.now →
            l < lines P → μ l ≡ unmarked → p ≤ 2 → valid P caps μ ≡ true →
            (result ≡ valid P caps (marking_with μ l p)) × (result ≡ true → Placeable P μ l p) }
    {
        if 1 < p {
            return true;
        }
        let part = usize::from(p);
        let crossed = self.by[LINE_ROOM * (1 - part) + l];
        if crossed != 0 {
            return false;
        }
        let load = u64::from(self.loads[part]) + u64::from(self.left[l]);
        load <= cap_of(caps, part)
    }

    // The lines struck for a part.
    pub(crate) fn strike_part(&self, p: usize, top: usize, caps: Caps) -> usize
        requires { (p < 2) × (top < weight_room) }
        ensures { result ≡ struck_from self.now.tally self.now.sums self.now.loads caps top p }
    {
        let s = (self.sums[p] as usize).saturating_sub(self.sums[BOTH_PLACE + p] as usize);
        let room = (cap_of(caps, p) as usize).saturating_sub(usize::from(self.loads[p]));
        strike(&self.tally, p, top, s, room)
    }

    // The least of a count and the bound, with the size of the matching: the lines to be struck are found only where the others do not reach the
    // count.
    fn least_with(&self, top: usize, caps: Caps, matched: usize, best: usize) -> usize
        requires { (top < weight_room) × (matched < 65536) }
        ensures { result ≡ min (bound_from self.now.tally self.now.sums self.now.loads caps top matched) best }
    {
        let sure = usize::from(self.loads[2]) + self.sums[TORN_PLACE] as usize;
        if best <= sure + matched {
            return best;
        }
        let need = best - sure;
        let zero = self.strike_part(0, top, caps);
        if need <= zero {
            return best;
        }
        let one = self.strike_part(1, top, caps);
        if need - zero <= one {
            return best;
        }
        sure + matched.max(zero + one)
    }

    // The least of a count and the bound of a valid marking, and the looks of its matching; no unmarked line has more than `top` nonzeros.
    pub(crate) fn judge(&self, crossed: &Crossed<'_, '_>, top: u16, caps: Caps, best: u64) -> Judged
        requires { Judgeable crossed.now self.now caps top }
        ensures { (μ : Marking) → KeepsOn crossed.now μ self.now →
            valid (pattern_in crossed.now.matrix) caps μ ≡ true → Topped (pattern_in crossed.now.matrix) μ top →
            (result.least ≡ min (bound (pattern_in crossed.now.matrix) caps μ) best) × (result.looks ≡ looks (pattern_in crossed.now.matrix) μ) }
    {
        let none = self.sums[CONFLICTS_PLACE] == 0;
        let over = Ground {
            lean: &self.kinds,
            m: crossed.matrix.m,
            list: crossed.matrix.list,
            starts: crossed.rows,
        };
        let matching = matched_of(&over, none);
        let least = self.least_with(
            usize::from(top),
            caps,
            matching.size as usize,
            best as usize,
        );
        Judged {
            least: least as u64,
            looks: matching.looks,
        }
    }
}
