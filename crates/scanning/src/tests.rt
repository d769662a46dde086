// Tests, and checks made of them.
ghost use Rattle.std.specs.Prelude.{◌≡◌, ◌<◌};
ghost use Rattle.model.specs.Calls.{outside};
ghost use Rattle.scanning.specs.Checks.{moved};

use model::Refusal;

// Outside the range 1 to the limit.
#[tactic(auto, using(crate::proofs::Joins::joins), unfolding(model::specs::Calls::outside))]
pub fn is_outside(limit: u32, x: u32) -> bool
    ensures { result ≡ outside limit x }
{
    x == 0 || limit < x
}

// The same refusal at another place.
pub fn move_to(verdict: Result<(), Refusal>, place: u64) -> Result<(), Refusal>
    ensures { result ≡ moved verdict place }
{
    verdict.map_err(|refusal| Refusal { place, ..refusal })
}
