// Volume and load for any values: the checks of the list and of the parts come first.
// Kept: numbers and list are as a caller hands them in, of any size, of which the checks refuse some: the signatures that callers have stay.
ghost use Rattle.std.specs.Prelude.{◌≡◌};
ghost use Rattle.model.specs.Refusal.{each_verdict};
ghost use Rattle.pattern.specs.Measures.{part_verdict, parts_verdict, measure_verdict, volume_call, load_call, measured_reply, volume_replies, load_replies};

use crate::checks::{list_verdict, refuse_if};
use crate::matrix::Matrix;
use crate::reading::byte_at;
use crate::splits::{load_of, volume_of};
use model::{Part, Refusal, Word};

// 8: the part byte of nonzero t is above 1.
#[tactic(auto, unfolding(crate::specs::Measures::part_verdict))]
pub fn part_verdict(parts: &[u8], t: usize) -> Result<(), Refusal>
    ensures { result ≡ part_verdict parts.now t }
{
    refuse_if(1 < byte_at(parts, t), Word::BadPart, t as u64)
}

// The checks of the first part bytes, in number order.
fn part_bytes_verdict(parts: &[u8], nonzeros: usize) -> Result<(), Refusal>
    ensures { result ≡ each_verdict (part_verdict parts.now) nonzeros }
{
    // Kept: a loop of one check and `?`, as those of the list and of the writer are; with the check passed in as a closure it is no plainer.
    for t in 0..nonzeros {
        part_verdict(parts, t)?;
    }
    Ok(())
}

// The checks of parts: 9, then per nonzero 8.
#[tactic(auto, unfolding(crate::specs::Measures::parts_verdict))]
fn parts_verdict(nonzeros: u64, parts: &[u8]) -> Result<(), Refusal>
    ensures { result ≡ parts_verdict nonzeros parts.now }
{
    let needed = nonzeros as usize;
    refuse_if(parts.len() < needed, Word::ShortBuffer, 0)?;
    part_bytes_verdict(parts, needed)
}

// The checks of a list, then those of its parts.
#[tactic(auto, unfolding(crate::specs::Measures::measure_verdict))]
fn measure_verdict(m: u64, n: u64, nonzeros: u64, list: &[u8], parts: &[u8]) -> Result<(), Refusal>
    ensures { result ≡ measure_verdict m n nonzeros list.now parts.now }
{
    list_verdict(m, n, nonzeros, list)?;
    parts_verdict(nonzeros, parts)
}

/// The volume of a split, in words of a vector: the number of lines with nonzeros in both parts.
#[tactic(auto, unfolding(crate::specs::Measures::volume_call, crate::specs::Measures::volume_replies))]
pub fn volume(m: u64, n: u64, nonzeros: u64, list: &[u8], parts: &[u8]) -> Result<u64, Refusal>
    ensures answer { result ≡ volume_call m n nonzeros list.now parts.now }
    ensures reply { measured_reply result ≡ volume_replies m n nonzeros list.now parts.now }
{
    measure_verdict(m, n, nonzeros, list, parts)?;
    let matrix = Matrix {
        m: m as u16,
        n: n as u16,
        nonzeros: nonzeros as u16,
        list,
    };
    Ok(volume_of(&matrix, parts))
}

/// The load of a part of a split: its number of nonzeros.
#[tactic(auto, unfolding(crate::specs::Measures::load_call, crate::specs::Measures::load_replies))]
pub fn load(
    m: u64,
    n: u64,
    nonzeros: u64,
    list: &[u8],
    parts: &[u8],
    part: Part,
) -> Result<u64, Refusal>
    ensures answer { result ≡ load_call m n nonzeros list.now parts.now part }
    ensures reply { measured_reply result ≡ load_replies m n nonzeros list.now parts.now part }
{
    measure_verdict(m, n, nonzeros, list, parts)?;
    Ok(load_of(parts, nonzeros as u16, part))
}
