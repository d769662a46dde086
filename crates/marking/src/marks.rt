// The marks of lines, from the marks by place.
ghost use Rattle.std.specs.Prelude.{◌≡◌, ℕ, ◌<◌, get_or, length};
ghost use Rattle.model.specs.Limits.{line_room};
ghost use Rattle.marking.specs.Marks.{mark_by, mark_for, unmarked_lines};

use model::limits::LINE_ROOM;
use pattern::room::lines_within;
use trail::Trail;

// The mark at a place, or 3, for no mark, past the last of a trail.
#[tactic(auto, using(crate::proofs::Marked::mark_by_lem, crate::proofs::Marked::mark_by_out, crate::proofs::Marked::mark_by_past))]
fn mark_of(trail: &Trail, place: u16) -> u8
    ensures { result ≡ mark_by trail.now.marks trail.now.len place }
{
    let at = usize::from(place);
    if at < trail.len {
        return trail.marks.get(at).copied().unwrap_or(3);
    }
    3
}

/// No line is marked.
pub fn unmarked_lines() -> [u8; LINE_ROOM]
    ensures { result ≡ unmarked_lines }
{
    [3u8; LINE_ROOM]
}

/// The mark of each of the first lines in a trail, by its place; the others are unmarked.
pub fn marks_by_line(lines: u16, places: &[u16; LINE_ROOM], trail: &Trail) -> [u8; LINE_ROOM]
    ensures { (length result ≡ line_room) × ((l : ℕ) → l < line_room → get_or result l 0 ≡ mark_for lines places.now trail.now.marks trail.now.len l) }
{
    let end = usize::from(lines_within(usize::from(lines)));
    let mut by_line = [3u8; LINE_ROOM];
    for l in 0..end {
        by_line[l] = mark_of(trail, places[l]);
    }
    by_line
}
