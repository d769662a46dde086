// A marking of any set of lines, evaluated by the functions that a run judges by.
// Kept: numbers and list are as a caller hands them in, of any size, of which the checks refuse some: the signatures that callers have stay.
ghost use Rattle.std.specs.Prelude.{true, false, ◌≡◌, ℕ, ◌+◌, ◌≤◌, ◌<◌};
ghost use Rattle.model.specs.Limits.{line_limit};
ghost use Rattle.model.specs.Refusal.{accepted};
ghost use Rattle.model.specs.Pattern.{pattern_of};
ghost use Rattle.model.specs.Marking.{Marking, unmarked, valid};
ghost use Rattle.model.specs.Calls.{list_verdict};
ghost use Rattle.pattern.specs.Matrix.{pattern_in};
ghost use Rattle.weighing.specs.Cells.{marking_in};
ghost use Rattle.weighing.specs.Taking.{TakenOf};
ghost use Rattle.running.specs.Evaluating.{NoBound, Evaluates};

use crate::kept::Kept;
use crate::room::{CONFLICTS_PLACE, TORN_PLACE};
use crate::tables::Crossed;
use bound::lower::matched_of;
use crossing::laying::crossings;
use crossing::starting::line_starts;
use marking::order::line_counts;
use matching::augmenting::Ground;
use matching::starts::row_starts;
use model::Caps;
use model::limits::LINE_ROOM;
use pattern::checks::list_verdict;
use pattern::matrix::Matrix;
use weighing::taking::{Taken, is_valid, taken_of};

// No line of an accepted list has more nonzeros.
const TOP: u16 = 300;

// What an evaluation says of a marking: whether it is valid, D0 and D1, and for a valid one L1 to L4, the least of the bound and a count, and
// the looks.
// Kept: `evaluate_lines` promises D0 and D1 of a marking that is not valid too, and zeros for the rest, so that no Option holds them all.
#[derive(Clone, Copy)]
pub struct Evaluation {
    pub valid: bool,
    pub zero: u16,
    pub one: u16,
    pub cut: u16,
    pub torn: u32,
    pub struck: u64,
    pub matched: u64,
    pub least: u64,
    pub looks: u64,
}

impl Kept {
    ghost use Rattle.running.specs.Kept.{KeepsOn};
    ghost use Rattle.running.specs.Judging.{Judgeable};
    ghost use Rattle.running.specs.Evaluating.{Evaluates};

    // The evaluation of a valid marking, from what it takes and what is kept of it.
    fn evaluate(&self, crossed: &Crossed<'_, '_>, taken: Taken, caps: Caps, best: u64) -> Evaluation
        requires { Judgeable crossed.now self.now caps line_limit }
        ensures { (μ : Marking) → KeepsOn crossed.now μ self.now →
            valid (pattern_in crossed.now.matrix) caps μ ≡ true → TakenOf (pattern_in crossed.now.matrix) μ taken →
            Evaluates (pattern_in crossed.now.matrix) caps μ best result }
    {
        let judged = self.judge(crossed, TOP, caps, best);
        let top = usize::from(TOP);
        let zero = self.strike_part(0, top, caps);
        let one = self.strike_part(1, top, caps);
        let none = self.sums[CONFLICTS_PLACE] == 0;
        let over = Ground {
            lean: &self.kinds,
            m: crossed.matrix.m,
            list: crossed.matrix.list,
            starts: crossed.rows,
        };
        let matching = matched_of(&over, none);
        let struck = zero + one;
        Evaluation {
            valid: true,
            zero: taken.zero,
            one: taken.one,
            cut: self.loads[2],
            torn: self.sums[TORN_PLACE],
            struck: struck as u64,
            matched: matching.size,
            least: judged.least,
            looks: judged.looks,
        }
    }
}

// The evaluation of a valid marking of an accepted list, from what it takes.
fn evaluate_valid(
    matrix: &Matrix<'_>,
    caps: Caps,
    given: &[u8; LINE_ROOM],
    taken: Taken,
    best: u64,
) -> Evaluation
    requires { (list_verdict matrix.now.m matrix.now.n matrix.now.nonzeros matrix.now.list.now ≡ accepted)
        × (valid (pattern_in matrix.now) caps (marking_in given.now) ≡ true) }
    ensures { ((l : ℕ) → l < matrix.now.m + matrix.now.n → marking_in given.now l ≤ unmarked) →
        TakenOf (pattern_in matrix.now) (marking_in given.now) taken →
        Evaluates (pattern_in matrix.now) caps (marking_in given.now) best result }
{
    let rows = row_starts(matrix);
    let counts = line_counts(matrix);
    let starts = line_starts(&counts, matrix.lines());
    let cross = crossings(matrix, &starts);
    let crossed = Crossed::over(matrix, &rows, &counts, &starts, &cross);
    let kept = Kept::of(given, &crossed, usize::from(crossed.matrix.lines()));
    kept.evaluate(&crossed, taken, caps, best)
}

// The evaluation of a marking that is not valid.
fn invalid(zero: u16, one: u16) -> Evaluation
    ensures { (result.valid ≡ false) × (result.zero ≡ zero) × (result.one ≡ one) × NoBound result }
{
    Evaluation {
        valid: false,
        zero,
        one,
        cut: 0,
        torn: 0,
        struck: 0,
        matched: 0,
        least: 0,
        looks: 0,
    }
}

// The evaluation of a marking of an accepted list.
fn evaluate_listed(
    m: u64,
    n: u64,
    nonzeros: u64,
    list: &[u8],
    caps: Caps,
    given: &[u8; LINE_ROOM],
    best: u64,
) -> Evaluation
    requires { list_verdict m n nonzeros list.now ≡ accepted }
    ensures { ((l : ℕ) → l < m + n → marking_in given.now l ≤ unmarked) →
        Evaluates (pattern_of m n nonzeros list.now) caps (marking_in given.now) best result }
{
    let matrix = Matrix {
        m: m as u16,
        n: n as u16,
        nonzeros: nonzeros as u16,
        list,
    };
    let taken = taken_of(&matrix, given);
    if is_valid(taken, caps) {
        return evaluate_valid(&matrix, caps, given, taken, best);
    }
    invalid(taken.zero, taken.one)
}

// A marking of any set of lines, given by the mark of each line, 0, 1, 2 for cut or 3 for none, and evaluated by the functions that a run
// judges by: instead of the bound it says the least of the bound and a count.
pub fn evaluate_lines(
    m: u64,
    n: u64,
    nonzeros: u64,
    list: &[u8],
    caps: Caps,
    given: &[u8; LINE_ROOM],
    best: u64,
) -> Evaluation
    ensures { list_verdict m n nonzeros list.now ≡ accepted →
        ((l : ℕ) → l < m + n → marking_in given.now l ≤ unmarked) →
        Evaluates (pattern_of m n nonzeros list.now) caps (marking_in given.now) best result }
{
    match list_verdict(m, n, nonzeros, list) {
        Ok(()) => evaluate_listed(m, n, nonzeros, list, caps, given, best),
        Err(_) => invalid(0, 0),
    }
}
