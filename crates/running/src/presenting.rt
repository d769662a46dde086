// A showing: the split in the lent parts, its volume, and the floor.
// Kept: numbers and list are as a caller hands them in, of any size, of which the checks refuse some: the signatures that callers have stay.
ghost use Rattle.std.specs.Prelude.{◌≡◌, ◌≤◌, length};
ghost use Rattle.trail.specs.Trail.{mark_room};
ghost use Rattle.model.specs.Split.{volume};
ghost use Rattle.model.specs.Walk.{floor};
ghost use Rattle.model.specs.State.{marks_in, caps_in, record_of};
ghost use Rattle.model.specs.Calls.{shown_from, shown, part_bytes, shown_parts, show_call, show_parts};
ghost use Rattle.pattern.specs.Matrix.{pattern_in};
ghost use Rattle.running.specs.Run.{rules_in, Tryable};

use crate::beginning::run_from;
use crate::tables::Ranked;
use marking::marks::marks_by_line;
use model::{Caps, Refusal, Search, Shown, Word};
use pattern::checks::{list_verdict, refuse_if};
use pattern::matrix::Matrix;
use pattern::splits::volume_of;
use showing::write_split;
use state::checking::state_fine;
use state::holding::{cleared, normal};
use trail::Trail;
use weighing::taking::taken_of;

// The floor of a search that is not refused. Every open marking is tried and taken as full: the trail, and at most two later marks for each of
// its own. Each that stands lowers the best count to its bound.
fn floor_shown(search: Search, ranked: &Ranked<'_>) -> u64
    requires { Tryable ranked.now.matrix search }
    ensures { result ≡ floor (rules_in search ranked.now.matrix) (record_of search) }
{
    if search.complete {
        return search.best_count;
    }
    let from = normal(search);
    let trail = from.trail;
    let open = 2 * trail.len + 1;
    let after = run_from(from, ranked, 0, open as u64);
    after.best_count
}

// Writes the split that a marking shows to the parts, and gives its volume.
fn show_split(best: Trail, ranked: &Ranked<'_>, caps: Caps, parts: &mut [u8]) -> u64
    ensures volume { best.len ≤ mark_room → ranked.now.matrix.nonzeros ≤ length parts.old →
        result ≡ volume (pattern_in ranked.now.matrix) (shown_from (pattern_in ranked.now.matrix) caps (marks_in best)) }
    ensures parts { best.len ≤ mark_room →
        parts.new ≡ part_bytes (shown_from (pattern_in ranked.now.matrix) caps (marks_in best)) ranked.now.matrix.nonzeros parts.old }
{
    let by_line = marks_by_line(ranked.matrix.lines(), &ranked.places, &cleared(best));
    let taken = taken_of(&ranked.matrix, &by_line);
    write_split(&ranked.matrix, caps, &by_line, taken.zero, parts);
    volume_of(&ranked.matrix, parts)
}

// A showing of a state that is not refused, with room for its parts.
fn show_fine(search: Search, ranked: &Ranked<'_>, parts: &mut [u8]) -> Shown
    requires tryable { Tryable ranked.now.matrix search }
    requires room { ranked.now.matrix.nonzeros ≤ length parts.old }
    ensures answer { result ≡ shown (pattern_in ranked.now.matrix) (caps_in search) (record_of search).best (floor (rules_in search ranked.now.matrix) (record_of search)) }
    ensures parts { parts.new ≡ shown_parts (pattern_in ranked.now.matrix) (caps_in search) (record_of search).best parts.old }
{
    let floor = floor_shown(search, ranked);
    if search.found {
        let caps = Caps {
            cap0: search.cap0,
            cap1: search.cap1,
        };
        let volume = show_split(search.best, ranked, caps, parts);
        return Shown::Split { volume, floor };
    }
    Shown::NoneYet { floor }
}

/// A showing on any list: the split of the best marking in the parts, its volume and the floor, or "none yet" and the floor. A refusal, of the
/// list, the state or the room of the parts, leaves every byte of them, as "none yet" does.
pub fn show_search(
    search: Search,
    m: u64,
    n: u64,
    nonzeros: u64,
    list: &[u8],
    parts: &mut [u8],
) -> Result<Shown, Refusal>
    ensures answer { result ≡ show_call search m n nonzeros list.now parts.old }
    ensures parts { parts.new ≡ show_parts search m n nonzeros list.now parts.old }
{
    list_verdict(m, n, nonzeros, list)?;
    let matrix = Matrix {
        m: m as u16,
        n: n as u16,
        nonzeros: nonzeros as u16,
        list,
    };
    let ranked = Ranked::of(&matrix);
    let fine = state_fine(search, &ranked.matrix, &ranked.places, ranked.full);
    refuse_if(!fine, Word::State, 0)?;
    refuse_if(
        parts.len() < usize::from(ranked.matrix.nonzeros),
        Word::ShortBuffer,
        0,
    )?;
    Ok(show_fine(search, &ranked, parts))
}
