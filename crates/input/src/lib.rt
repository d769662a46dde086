// A page filled from a reader: how the programs read standard input and files.
#![tactic(auto)]

ghost use Rattle.std.specs.Prelude.{◌≤◌, IfOk, length, take};
ghost use Rattle.std.specs.Io.KnownBytes.{Consumes};

use std::io;
use std::io::{ErrorKind, Read};

// What was read into a page: the number of its bytes, and the error of the reading that failed, if one did.
#[derive(Drop)]
struct Filled {
    count: usize,
    ended: io::Result<()>,
}

// Reads until the page is full, the reader ends or a reading fails. A reading that is interrupted is tried again.
fn fill<R: Read>(reader: &mut R, page: &mut [u8]) -> Filled
    ensures count { result.count ≤ length page.new }
    ensures bytes { Consumes (R.remaining reader.old) (R.remaining reader.new) (take result.count page.new) }
{
    let mut at: usize = 0;
    for _ in 0..u64::MAX {
        if at >= page.len() {
            break;
        }
        match reader.read(&mut page[at..]) {
            Ok(0) => break,
            Ok(count) => at += count,
            Err(error) => {
                if error.kind() != ErrorKind::Interrupted {
                    return Filled {
                        count: at,
                        ended: Err(error),
                    };
                }
            }
        }
    }
    Filled {
        count: at,
        ended: Ok(()),
    }
}

/// Reads until the page is full or the reader ends, and gives the number of the bytes read. After an error it is not known how much of the page
/// was filled.
pub fn read_full<R: Read>(reader: &mut R, page: &mut [u8]) -> io::Result<usize>
    ensures count { IfOk result (λ count. count ≤ length page.new) }
    ensures bytes { IfOk result (λ count. Consumes (R.remaining reader.old) (R.remaining reader.new) (take count page.new)) }
{
    let filled = fill(reader, page);
    filled.ended?;
    Ok(filled.count)
}

/// Reads until the page is full, the reader ends or a reading fails, and gives the number of the bytes read. A reading that fails counts as the
/// reader's end.
pub fn read_so_far<R: Read>(reader: &mut R, page: &mut [u8]) -> usize
    ensures count { result ≤ length page.new }
    ensures bytes { Consumes (R.remaining reader.old) (R.remaining reader.new) (take result page.new) }
{
    fill(reader, page).count
}
