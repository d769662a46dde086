// Arrays by line: how many lines they have room for.
ghost use Rattle.std.specs.Prelude.{◌≡◌, ◌+◌};
ghost use Rattle.pattern.specs.Room.{within};

use model::limits::LINE_ROOM;

// So many lines, or as many as there is room for.
pub fn lines_within(lines: usize) -> u16
    ensures { result ≡ within lines }
{
    if lines < LINE_ROOM {
        lines as u16
    } else {
        LINE_ROOM as u16
    }
}

// The lines of m rows and n columns, or as many as there is room for.
pub fn lines_of(m: u16, n: u16) -> u16
    ensures { result ≡ within (m + n) }
{
    lines_within(usize::from(m) + usize::from(n))
}
