// Bytes of a list of nonzeros, read and set. Each function takes any values: past the end of a list every byte is 0, and none is set.
ghost use Rattle.std.specs.Prelude.{◌≡◌, ◌+◌, ◌*◌, ◌<◌, get_or, set};
ghost use Rattle.model.specs.Pattern.{number_in, row_in, column_in, with_number, with_entry};

// The byte at a place of a list.
pub fn byte_at(list: &[u8], at: usize) -> u8
    ensures { result ≡ get_or list.now at 0 }
{
    list.get(at).copied().unwrap_or(0)
}

// Sets the item at a place of a list; past its end none is set.
#[tactic(auto, using(std::proofs::lemmas::List::set_past))]
pub fn put<T: Copy>(list: &mut [T], at: usize, item: T)
    ensures { list.new ≡ set list.old at item }
{
    if at < list.len() {
        list[at] = item;
    }
}

// The number of two bytes.
pub fn number_of(low: u8, high: u8) -> u16
    ensures { result ≡ low + 256 * high }
{
    u16::from(low) + 256 * u16::from(high)
}

// The number at a place of a list, lowest byte first.
fn number_at(list: &[u8], at: usize) -> u16
    requires { at < 4294967296 }
    ensures { result ≡ number_in list.now at }
{
    if at + 1 < list.len() {
        let low = list[at];
        let high = list[at + 1];
        return number_of(low, high);
    }
    number_of(byte_at(list, at), 0)
}

// The row of nonzero t.
#[tactic(auto, unfolding(model::specs::Pattern::row_in))]
pub fn row_of(list: &[u8], t: u16) -> u16
    ensures { result ≡ row_in list.now t }
{
    number_at(list, 4 * usize::from(t))
}

// The column of nonzero t.
#[tactic(auto, unfolding(model::specs::Pattern::column_in))]
pub fn column_of(list: &[u8], t: u16) -> u16
    ensures { result ≡ column_in list.now t }
{
    number_at(list, 4 * usize::from(t) + 2)
}

// Sets the number at a place of a list, lowest byte first.
fn put_number(list: &mut [u8], at: usize, x: u16)
    requires { at < 1099511627776 }
    ensures { list.new ≡ with_number at x list.old }
{
    put(list, at, (x % 256) as u8);
    put(list, at + 1, (x / 256) as u8);
}

// Sets the row and the column of nonzero t.
#[tactic(auto, unfolding(model::specs::Pattern::with_entry))]
pub fn put_entry(list: &mut [u8], t: u32, row: u16, column: u16)
    ensures { list.new ≡ with_entry t row column list.old }
{
    let at = 4 * (t as usize);
    put_number(list, at, row);
    put_number(list, at + 2, column);
}
