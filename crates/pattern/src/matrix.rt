// The pattern of a matrix as it is lent: the numbers of rows, columns and nonzeros, and the list. Any values are taken.
ghost use Rattle.std.specs.Prelude.{◌≡◌, ◌+◌};
ghost use Rattle.model.specs.Pattern.{row_in, column_in};
ghost use Rattle.pattern.specs.Room.{within};

use crate::{reading, room};

/// A pattern: m rows, n columns, and so many nonzeros, whose row and column numbers stand in the list, lowest byte first. Past the end of the
/// list every byte is 0.
#[derive(Clone, Copy)]
pub struct Matrix<'a> {
    pub m: u16,
    pub n: u16,
    pub nonzeros: u16,
    pub list: &'a [u8],
}

impl Matrix<'_> {
    /// The row of nonzero t, counted from 0.
    pub fn row_of(&self, t: u16) -> u16
        ensures { result ≡ row_in self.now.list.now t }
    {
        reading::row_of(self.list, t)
    }

    /// The column of nonzero t, counted from 0.
    pub fn column_of(&self, t: u16) -> u16
        ensures { result ≡ column_in self.now.list.now t }
    {
        reading::column_of(self.list, t)
    }

    /// The number of lines, or as many as an array by line has room for.
    pub fn lines(&self) -> u16
        ensures { result ≡ within (self.now.m + self.now.n) }
    {
        room::lines_of(self.m, self.n)
    }
}
