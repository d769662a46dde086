// Fields, bytes, refusals and answers printed. None of these fails: what printing fails on is passed over, as `Unfailing` does.
ghost use Rattle.std.specs.Prelude.{◌≡◌};
ghost use Rattle.testing.specs.declared.Kind.TheVariants.{Text};
ghost use Rattle.testing.specs.Cases.{field_at, empty_page};

use crate::Kind;
use crate::cases::Cases;
use crate::laying::first;
use model::{Ended, Refusal};
use std::convert::AsSlice;

/// Prints the text of a field, of which 128 bytes are printed at most.
pub fn say_field(rt: &impl Print, cases: &mut Cases<'_>)
    ensures { cases.new ≡ record cases.old { at = (field_at Text cases.old.text.now cases.old.at empty_page).0.next } }
{
    let mut page = [0u8; 128];
    let len = cases.field(Kind::Text, &mut page);
    let _ = rt.write_all(first(&page, len));
}

/// Prints words, and the bytes of a slice as numbers.
pub fn say_bytes(rt: &impl Print, words: impl AsSlice<u8> + Drop, bytes: &[u8]) {
    let _ = rt.write_all(words.as_slice());
    for byte in bytes {
        let _ = print!(rt; " {byte}");
    }
}

/// Prints a refusal, by the table's number and its place.
pub fn say_refused(rt: &impl Print, refusal: Refusal) {
    let number = u64::from(refusal.word);
    let place = refusal.place;
    let _ = print!(rt; " refused {number} at {place}");
}

/// Prints what a run answers.
pub fn say_run(rt: &impl Print, answer: Result<Ended, Refusal>) {
    match answer {
        Ok(Ended::Complete { looks }) => {
            let _ = print!(rt; " complete looks {looks}");
        }
        Ok(Ended::Stopped { looks }) => {
            let _ = print!(rt; " stopped looks {looks}");
        }
        Err(refusal) => say_refused(rt, refusal),
    }
}
