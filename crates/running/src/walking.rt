// A try with one mark more, and marks lifted along the trail.
ghost use Rattle.std.specs.Prelude.{List, ◌≡◌, ℕ, ◌≤◌};
ghost use Rattle.model.specs.declared.Caps.{Caps};
ghost use Rattle.model.specs.Marking.{marking};
ghost use Rattle.model.specs.Walk.{rules_of};
ghost use Rattle.model.specs.State.{stack};
ghost use Rattle.pattern.specs.Matrix.{pattern_in};

use crate::kept::Kept;
use crate::tables::{Crossed, Tables};
use model::Caps;

// Whether a trail stands, the least of the best count and its bound, and the looks of its try.
// Kept: `stands` is asked for twice after a try, once with no use for the bound, so that an Option is no plainer.
#[derive(Clone, Copy)]
pub(crate) struct Tried {
    pub stands: bool,
    pub least: u64,
    pub looks: u64,
}

impl Kept {
    ghost use Rattle.running.specs.Kept.{KeepsOn};
    ghost use Rattle.running.specs.Walking.{Standing, Next, Attempted, Attemptable, Liftable};

    // A try with mark p for line l, the next in order. The mark stays if the trail with it stands.
    pub(crate) fn try_mark(
        &mut self,
        crossed: &Crossed<'_, '_>,
        l: usize,
        p: u8,
        caps: Caps,
        best: u64,
    ) -> Tried
        requires { Attemptable crossed.now self.old l p caps }
        ensures { (τ : List ℕ) → Next (pattern_in crossed.now.matrix) caps τ l p →
            KeepsOn crossed.now (marking (pattern_in crossed.now.matrix) τ) self.old →
            Attempted (pattern_in crossed.now.matrix) caps τ p best result self.new }
    {
        if self.is_fit(l, p, caps) {
            self.push(crossed, l, p);
            let judged = self.judge(crossed, crossed.counts[l], caps, best);
            let least = judged.least;
            if least < best {
                return Tried {
                    stands: true,
                    least,
                    looks: judged.looks,
                };
            }
            self.pop(crossed, l);
            return Tried {
                stands: false,
                least,
                looks: judged.looks,
            };
        }
        Tried {
            stands: false,
            least: best,
            looks: 0,
        }
    }

    // Lifts marks from the end, from so many down to so many.
    pub(crate) fn lift(&mut self, tables: &Tables<'_, '_>, from: usize, to: usize)
        requires { Liftable tables.now self.old from }
        ensures { (caps : Caps) (mark : ℕ → ℕ) → Standing (rules_of (pattern_in tables.now.crossed.matrix) caps) (stack mark from) → to ≤ from →
            KeepsOn tables.now.crossed (marking (pattern_in tables.now.crossed.matrix) (stack mark from)) self.old →
            KeepsOn tables.now.crossed (marking (pattern_in tables.now.crossed.matrix) (stack mark to)) self.new }
    {
        for at in (to..from).rev() {
            self.pop(&tables.crossed, usize::from(tables.order[at]));
        }
    }
}
