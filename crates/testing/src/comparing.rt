// Bytes compared.
ghost use Rattle.std.specs.Prelude.{◌≡◌, ℕ, ◌<◌, ◌≤◌, length, get_or};

use pattern::reading::byte_at;

// How many first bytes of two slices are the same, up to the end of the first one.
pub fn same_count(first: &[u8], second: &[u8]) -> usize
    ensures { (result ≤ length first.now)
        × ((i : ℕ) → i < result → get_or first.now i 0 ≡ get_or second.now i 0) }
{
    for (i, byte) in first.iter().enumerate() {
        if *byte != byte_at(second, i) {
            return i;
        }
    }
    first.len()
}
