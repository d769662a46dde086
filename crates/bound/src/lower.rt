// L4 with its looks, from how lines lean.
ghost use Rattle.std.specs.Prelude.{◌≡◌, ◌≤◌};
ghost use Rattle.counting.specs.Tests.{pick};
ghost use Rattle.matching.specs.Augmenting.{ground_in, matching_in};
ghost use Rattle.bound.specs.Evaluated.{no_matching};

use matching::augmenting::{Ground, Matching};

/// The matching of L4. Where there are no conflicts it is not searched.
pub fn matched_of(over: &Ground<'_>, none: bool) -> Matching
    ensures { (result ≡ pick none no_matching (matching_in (ground_in over.now))) × (result.size ≤ 65535) }
{
    if none {
        Matching { size: 0, looks: 0 }
    } else {
        over.matching_of()
    }
}
