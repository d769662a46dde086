// Reading a text.
ghost use Rattle.std.specs.Prelude.{◌≡◌, ◌*◌, ◌≤◌, length};
ghost use Rattle.model.specs.Limits.{line_limit};
ghost use Rattle.texts.specs.Reading.{entries_below, nonzeros_in, opened_verdict, below_verdict, answer_read, list_given, parts_given, read_call, read_list, read_parts, read_reply, read_replies};

use crate::entries::note_entries;
use crate::giving::{count_given, give};
use crate::head::{head_verdict, header_of, room_verdict};
use crate::{Header, TextRead};
use model::Refusal;
use model::limits::CELL_ROOM;
use scanning::words::is_integer;

// The check of a symmetric text after its last entry: 4 for the opened N, then 9.
#[tactic(auto, using(scanning::proofs::Joins::joins), unfolding(crate::specs::Reading::opened_verdict))]
fn opened_verdict(header: Header, nonzeros: u32, list: usize, parts: usize) -> Result<(), Refusal>
    ensures { result ≡ opened_verdict header nonzeros list parts }
{
    if header.symmetric {
        room_verdict(header, nonzeros, list, parts)
    } else {
        Ok(())
    }
}

// The entries read, and output where nothing is refused.
fn read_entries(
    text: &[u8],
    header: Header,
    list: &mut [u8],
    parts: &mut [u8],
) -> Result<TextRead, Refusal>
    requires { header.m ≤ line_limit }
    ensures answer { result ≡ answer_read (below_verdict text.now header (length list.old) (length parts.old)) header (nonzeros_in header (entries_below text.now header).cells) }
    ensures list { list.new ≡ list_given (below_verdict text.now header (length list.old) (length parts.old)) header (entries_below text.now header).cells list.old }
    ensures parts { parts.new ≡ parts_given (below_verdict text.now header (length list.old) (length parts.old)) header (entries_below text.now header).cells parts.old }
{
    let mut cells = [0u8; CELL_ROOM];
    let entries = note_entries(text, header, &mut cells);
    let nonzeros = count_given(&cells, header.m as u16);
    entries?;
    opened_verdict(header, nonzeros, list.len(), parts.len())?;
    give(&cells, header, list, parts);
    Ok(TextRead {
        m: u64::from(header.m),
        n: u64::from(header.n),
        nonzeros: u64::from(nonzeros),
        integer: is_integer(header.field),
    })
}

/// Reads a text: sizes and whether there are parts as the answer, the list and for integer the parts as output. The list takes 4 bytes a nonzero,
/// row and then column, lowest byte first, and the parts a byte, 0 or 1. A refusal, by the table's checks in its order, leaves every byte of both.
pub fn read(text: &[u8], list: &mut [u8], parts: &mut [u8]) -> Result<TextRead, Refusal>
    ensures answer { result ≡ read_call text.now list.old parts.old }
    ensures list { list.new ≡ read_list text.now list.old parts.old }
    ensures parts { parts.new ≡ read_parts text.now list.old parts.old }
    ensures reply { read_reply result ≡ read_replies text.now list.old parts.old }
{
    let header = header_of(text);
    head_verdict(header, text.len(), list.len(), parts.len())?;
    read_entries(text, header, list, parts)
}
