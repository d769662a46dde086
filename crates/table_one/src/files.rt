// The files of data/, read into a page.
ghost use Rattle.std.specs.Prelude.{◌≤◌, IfOk, length};

use input::read_full;
use std::rt::Files;
use std::{fs, io};

// Room for each of the files, which have under 8,000 bytes, and for a first line before it.
pub const PAGE_ROOM: usize = 8192;

// Reads the file of a name into a page, and gives the number of its bytes.
pub(crate) fn read_named(rt: &impl Files, name: &str, page: &mut [u8]) -> io::Result<usize>
    ensures { IfOk result (λ count. count ≤ length page.new) }
{
    let mut file = fs::open(rt, name)?;
    read_full(&mut file, page)
}
