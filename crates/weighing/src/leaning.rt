// The condition of a line.
ghost use Rattle.std.specs.Prelude.{◌≡◌};
ghost use Rattle.model.specs.Marking.{condition_for};

use model::{Condition, Mark, Part};

/// The condition of a line, from its mark and whether it has nonzeros taken by 0 and by 1.
#[tactic(auto, using(crate::proofs::Conditions::free_as_unmarked), unfolding(model::specs::Marking::condition_for))]
pub fn condition_of(mark: u8, by_zero: bool, by_one: bool) -> Condition
    ensures { result ≡ condition_for mark by_zero by_one }
{
    match mark {
        0 => Condition::Marked(Mark::To(Part::Zero)),
        1 => Condition::Marked(Mark::To(Part::One)),
        2 => Condition::Marked(Mark::Cut),
        _ => match (by_zero, by_one) {
            (true, true) => Condition::Torn,
            (true, false) => Condition::Leaning(Part::Zero),
            (false, true) => Condition::Leaning(Part::One),
            (false, false) => Condition::Untouched,
        },
    }
}
