// What the program prints, in an input and an output of its own: room for every input and every answer.
ghost use Rattle.std.specs.Prelude.{◌≡◌, take};
ghost use Rattle.writing.specs.Written.{Puts};
ghost use Rattle.answering.specs.Answer.{answer_text};
ghost use Rattle.answering.specs.Printing.{no_input, no_output, Prints};

use crate::splitting::answer;
use crate::{INPUT_ROOM, OUTPUT_ROOM, Printed};

// An input before it is read.
pub fn no_input() -> [u8; INPUT_ROOM]
    ensures { result ≡ no_input }
{
    [0u8; INPUT_ROOM]
}

// An output before it is written.
fn no_output() -> [u8; OUTPUT_ROOM]
    ensures { result ≡ no_output }
{
    [0u8; OUTPUT_ROOM]
}

// Writes the answer to the first bytes of an input.
fn answer_start(input: &[u8], count: usize, out: &mut [u8]) -> usize
    ensures { Puts out.old 0 (answer_text (take count input.now) out.old) out.new result }
{
    if count <= input.len() {
        answer(&input[0..count], out)
    } else {
        answer(input, out)
    }
}

// What is printed where the first count bytes of the input were read.
pub fn printed(input: [u8; INPUT_ROOM], count: usize) -> Printed
    ensures { Prints input count result }
{
    let mut out = no_output();
    let len = answer_start(&input, count, &mut out);
    Printed { bytes: out, len }
}
