// Printing of answers and bytes. Each byte of a lent slice is 9 before a call.
use model::Refusal;
use std::io;
use testing::saying::{say_bytes, say_refused};
use texts::TextRead;

// Sizes, and integer where there are parts or pattern where there are none, or a refusal.
pub(crate) fn say_read(rt: &impl Print, answer: Result<TextRead, Refusal>) -> io::Result<()> {
    print!(rt; ":")?;
    match answer {
        Ok(
            TextRead {
                m,
                n,
                nonzeros,
                integer,
            },
        ) => {
            let field = if integer { "integer" } else { "pattern" };
            print!(rt; " {m} {n} {nonzeros} {field}")
        }
        Err(refusal) => {
            say_refused(rt, refusal);
            Ok(())
        }
    }
}

// The length of a text, or a refusal.
pub(crate) fn say_written(rt: &impl Print, answer: Result<u64, Refusal>) -> io::Result<()> {
    print!(rt; ":")?;
    match answer {
        Ok(len) => print!(rt; " written {len}"),
        Err(refusal) => {
            say_refused(rt, refusal);
            Ok(())
        }
    }
}

// Every byte of a slice is still 9.
pub(crate) fn is_kept(bytes: &[u8]) -> bool {
    bytes.iter().all(|byte| *byte == 9)
}

// The bytes of a slice as numbers, or that it kept them all.
pub(crate) fn say_left(rt: &impl Print, words: &str, bytes: &[u8]) -> io::Result<()> {
    if is_kept(bytes) {
        print!(rt; "{words} kept")
    } else {
        say_bytes(rt, words, bytes);
        Ok(())
    }
}
