// A marking in the order of lines, as a stack of marks, one byte each: as a search holds it. Its methods append and drop marks and hand it back.
#![tactic(auto)]

ghost use Rattle.std.specs.Prelude.{◌≡◌};
ghost use Rattle.trail.specs.Trail.{top_of, appended, dropped, mark_or, is_part};

// Room for a mark of every line, of 300 rows and 300 columns.
pub const MARK_ROOM: usize = 600;

// A marking: the mark of the line at place i is marks[i], for each i below len. Methods keep 0 in the marks past its length.
// Kept: an array and a length, as memory is fixed, and a caller may hand in any length, which search::run refuses.
#[derive(Clone, Copy, PartialEq, Eq)]
pub struct Trail {
    pub marks: [u8; MARK_ROOM],
    pub len: usize,
}

// The index of the last of so many marks, or the array's end where there is none.
fn top(len: usize) -> usize
    ensures { result ≡ top_of len }
{
    if 0 < len { len - 1 } else { MARK_ROOM }
}

// The mark at an index, or 0 past the array's end.
pub fn mark_at(marks: &[u8; MARK_ROOM], i: usize) -> u8
    ensures { result ≡ mark_or 0 marks.now i }
{
    if i < MARK_ROOM { marks[i] } else { 0 }
}

// A mark is 0 or 1.
pub fn is_part(mark: u8) -> bool
    ensures { result ≡ is_part mark }
{
    mark < 2
}

impl Trail {
    // One mark more; a full trail stays as it is.
    pub fn append(mut self, mark: u8) -> Trail
        ensures { result ≡ appended self mark }
    {
        let at = self.len;
        if at < MARK_ROOM {
            self.marks[at] = mark;
            self.len = at + 1;
        }
        self
    }

    // Without its last mark; a trail that has none stays as it is.
    pub fn drop(mut self) -> Trail
        ensures { result ≡ dropped self }
    {
        let at = top(self.len);
        if at < MARK_ROOM {
            self.marks[at] = 0;
            self.len = at;
        }
        self
    }
}
