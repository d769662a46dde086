// Patterns and caps as cases give them.
ghost use Rattle.std.specs.Prelude.{◌≡◌, take};
ghost use Rattle.testing.specs.Cases.{list_at, number_of, past_number};
ghost use Rattle.testing.specs.Patterns.{empty_room, past_sizes, ListedAt};

use crate::cases::Cases;
use crate::laying::first;
use model::Caps;
use model::limits::LIST_ROOM;

/// A pattern: any numbers of rows, columns and nonzeros, and a list of so many bytes, in a room for the longest one that is accepted.
// Kept: a room and a length, as a field of a case is laid out in a page that is there: a Vec is no plainer.
#[derive(Clone, Copy)]
pub struct Pattern {
    pub m: u64,
    pub n: u64,
    pub nonzeros: u64,
    pub room: [u8; LIST_ROOM],
    pub len: usize,
}

impl Pattern {
    /// The list, or as much of it as there is room for.
    pub fn list(&self) -> &[u8]
        ensures { result.now ≡ take self.now.len self.now.room }
    {
        first(&self.room, self.len)
    }
}

impl Cases<'_> {
    /// The numbers of a pattern, whose list is still empty.
    // Inlined, so that the room is made where it stays, and is not copied there.
    #[inline(always)]
    pub fn sizes(&mut self) -> Pattern
        ensures m { result.m ≡ number_of self.old.text.now self.old.at }
        ensures n { result.n ≡ number_of self.old.text.now (past_number self.old.text.now self.old.at) }
        ensures nonzeros { result.nonzeros ≡ number_of self.old.text.now (past_number self.old.text.now (past_number self.old.text.now self.old.at)) }
        ensures room { result.room ≡ empty_room }
        ensures none { result.len ≡ 0 }
        ensures rest { self.new ≡ record self.old { at = past_sizes self.old.text.now self.old.at } }
    {
        let m = self.number();
        let n = self.number();
        let nonzeros = self.number();
        Pattern {
            m,
            n,
            nonzeros,
            room: [0u8; LIST_ROOM],
            len: 0,
        }
    }

    /// Cap 0 and cap 1.
    pub fn caps(&mut self) -> Caps
        ensures cap0 { result.cap0 ≡ number_of self.old.text.now self.old.at }
        ensures cap1 { result.cap1 ≡ number_of self.old.text.now (past_number self.old.text.now self.old.at) }
        ensures rest { self.new ≡ record self.old { at = past_number self.old.text.now (past_number self.old.text.now self.old.at) } }
    {
        let cap0 = self.number();
        let cap1 = self.number();
        Caps { cap0, cap1 }
    }

    /// Lays out the list of a pattern in its room.
    pub fn cells(&mut self, pattern: &mut Pattern)
        ensures laid { pattern.new ≡ record pattern.old { room = (list_at self.old.text.now self.old.at pattern.old.room).1; len = (list_at self.old.text.now self.old.at pattern.old.room).0.value } }
        ensures rest { self.new ≡ record self.old { at = (list_at self.old.text.now self.old.at pattern.old.room).0.next } }
    {
        pattern.len = self.list(&mut pattern.room);
    }

    /// A pattern, whose list comes after its numbers.
    // Inlined, as `sizes` is.
    #[inline(always)]
    pub fn pattern(&mut self) -> Pattern
        ensures m { result.m ≡ number_of self.old.text.now self.old.at }
        ensures n { result.n ≡ number_of self.old.text.now (past_number self.old.text.now self.old.at) }
        ensures nonzeros { result.nonzeros ≡ number_of self.old.text.now (past_number self.old.text.now (past_number self.old.text.now self.old.at)) }
        ensures list { ListedAt self.old.text.now (past_sizes self.old.text.now self.old.at) result self.new.at }
        ensures text { self.new.text ≡ self.old.text }
    {
        let mut pattern = self.sizes();
        self.cells(&mut pattern);
        pattern
    }
}
