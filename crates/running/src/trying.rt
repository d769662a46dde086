// Tries, one after another.
ghost use Rattle.std.specs.Prelude.{◌≡◌};
ghost use Rattle.model.specs.State.{record_of, search_of};
ghost use Rattle.running.specs.Trying.{walk_to};
ghost use Rattle.running.specs.Run.{rules_in, Walkable};

use crate::kept::Kept;
use crate::tables::Tables;
use model::{Caps, Search};
use packing::packed;
use pattern::cap::unequal_caps;

// So many tries from a search, or fewer only because it became complete, with k marks for a full trail.
pub(crate) fn walk_on(
    search: Search,
    tables: &Tables<'_, '_>,
    kept: &mut Kept,
    k: u16,
    budget: u64,
) -> Search
    requires { Walkable search tables.now kept.old k budget }
    ensures { result ≡ search_of (walk_to (rules_in search tables.now.crossed.matrix) k budget (record_of search)) }
{
    let caps = Caps {
        cap0: search.cap0,
        cap1: search.cap1,
    };
    let first = unequal_caps(caps);
    let full = usize::from(k);
    let mut trail = packed(search.trail);
    let mut best = search.best;
    let mut count = search.best_count;
    let mut found = search.found;
    let mut looks = search.looks;
    let mut made: u64 = 0;
    // Kept: how many tries were made is asked for after the loop, which the number of a range would not be there to say.
    while trail.len != 0 && made < budget {
        let len = trail.len;
        let l = usize::from(tables.order[len - 1]);
        let p = trail.last();
        let tried = kept.try_mark(&tables.crossed, l, p, caps, count);
        looks = looks + tried.looks;
        if tried.stands && len < full {
            trail = trail.append(0);
        } else {
            let mut placed = len - 1;
            if tried.stands {
                best = trail.unpacked();
                count = tried.least;
                found = true;
                placed = len;
            }
            trail = trail.advance(first);
            kept.lift(tables, placed, trail.len.saturating_sub(1));
        }
        made += 1;
    }
    let mut s = search;
    let tries = s.tries;
    s.tries = tries + made;
    s.looks = looks;
    s.best_count = count;
    s.found = found;
    s.best = best;
    s.complete = trail.len == 0;
    s.trail = trail.unpacked();
    s
}
