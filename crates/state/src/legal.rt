// The marks of a trail: legal ones, each 0, 1 or cut with mark 1 only where it is allowed, and the number cut.
ghost use Rattle.std.specs.Prelude.{◌≡◌};
ghost use Rattle.counting.specs.Tests.{◌or◌};
ghost use Rattle.trail.specs.Trail.{is_part};
ghost use Rattle.state.specs.Legal.{marks_legal, ones_legal, one_denied, cuts_in};

use trail::{MARK_ROOM, is_part, mark_at};

// Each mark before an index is 0, 1 or cut.
pub(crate) fn are_marks(marks: &[u8; MARK_ROOM], end: usize) -> bool
    ensures { result ≡ marks_legal marks.now end }
{
    for i in 0..end {
        if 2 < mark_at(marks, i) {
            return false;
        }
    }
    true
}

// Mark 1 stands where it is not allowed.
fn one_denied(mark: u8, allowed: bool) -> bool
    ensures { result ≡ one_denied mark allowed }
{
    !allowed && mark == 1
}

// Mark 1 is allowed behind this mark: it is 0 or 1, or mark 1 was allowed before it.
fn allowed_behind(mark: u8, allowed: bool) -> bool
    ensures { result ≡ is_part mark or allowed }
{
    is_part(mark) || allowed
}

// Mark 1 stands before an index only where it is allowed: it may come first, or some earlier mark is 0 or 1.
pub(crate) fn ones_allowed(marks: &[u8; MARK_ROOM], end: usize, first: bool) -> bool
    ensures { result ≡ ones_legal first marks.now end }
{
    let mut allowed = first;
    for i in 0..end {
        let mark = mark_at(marks, i);
        if one_denied(mark, allowed) {
            return false;
        }
        allowed = allowed_behind(mark, allowed);
    }
    true
}

/// The number of marks cut before an index.
pub fn cuts_before(marks: &[u8; MARK_ROOM], end: usize) -> u64
    ensures { result ≡ cuts_in marks.now end }
{
    let mut cuts = 0u64;
    for i in 0..end {
        if mark_at(marks, i) == 2 {
            cuts += 1;
        }
    }
    cuts
}
