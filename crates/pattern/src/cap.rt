// The cap from a percentage and the rest that was cut off, and what is asked of the caps of both parts.
ghost use Rattle.std.specs.Prelude.{◌≡◌};
ghost use Rattle.model.specs.Split.{unequal, caps_outside};
ghost use Rattle.model.specs.Calls.{cap_call, cap_reply, cap_replies};

use crate::checks::refuse_if;
use model::limits::{CAP_LIMIT, NONZERO_LIMIT, PERCENT_LIMIT};
use model::{Capped, Caps, Refusal, Word};

/// The cap from N nonzeros and a percentage e: quotient and remainder of (100 + e) × ceiling(N / 2) by 100. Refused with 4 for N above its
/// range, and then with 11 for e above its range.
#[tactic(auto, unfolding(model::specs::Calls::cap_verdict, model::specs::Calls::cap_call, model::specs::Calls::cap_replies, model::specs::Split::cap_from_percent, model::specs::Split::rest_from_percent, model::specs::Split::cap_hundredths, model::specs::Split::ceiling_half))]
pub fn cap_from_percent(nonzeros: u64, percent: u64) -> Result<Capped, Refusal>
    ensures answer { result ≡ cap_call nonzeros percent }
    ensures reply { cap_reply result ≡ cap_replies nonzeros percent }
{
    refuse_if(NONZERO_LIMIT < nonzeros, Word::TooBig, 0)?;
    refuse_if(PERCENT_LIMIT < percent, Word::Cap, 0)?;
    let hundredths = (100 + percent) * ((nonzeros + 1) / 2);
    Ok(Capped {
        cap: hundredths / 100,
        rest: hundredths % 100,
    })
}

// Either cap is outside its range.
pub fn caps_outside(caps: Caps) -> bool
    ensures { result ≡ caps_outside caps }
{
    CAP_LIMIT < caps.cap0 || CAP_LIMIT < caps.cap1
}

// The caps are unequal.
pub fn unequal_caps(caps: Caps) -> bool
    ensures { result ≡ unequal caps }
{
    caps.cap0 != caps.cap1
}
