// Volume and loads of splits, and the refusals of both calls.
use model::limits::PART_ROOM;
use model::{Part, Refusal};
use pattern::measures::{load, volume};
use std::io;
use testing::Kind;
use testing::cases::Cases;
use testing::laying::first;
use testing::patterns::Pattern;
use testing::saying::{say_field, say_refused};

// Words, and a number or a refusal.
fn say_measured(rt: &impl Print, words: &str, measured: Result<u64, Refusal>) -> io::Result<()> {
    print!(rt; "{words}")?;
    match measured {
        Ok(value) => print!(rt; " {value}"),
        Err(refusal) => {
            say_refused(rt, refusal);
            Ok(())
        }
    }
}

// The volume of a split and the loads of both parts, on a line of its own.
fn measure(rt: &impl Print, pattern: &Pattern, parts: &[u8]) -> io::Result<()> {
    let Pattern { m, n, nonzeros, .. } = *pattern;
    let list = pattern.list();
    say_measured(rt, ": volume", volume(m, n, nonzeros, list, parts))?;
    let zero = load(m, n, nonzeros, list, parts, Part::Zero);
    say_measured(rt, ", load of part 0", zero)?;
    let one = load(m, n, nonzeros, list, parts, Part::One);
    say_measured(rt, ", of part 1", one)?;
    println!(rt)
}

// The measures of a split that a case gives.
pub(crate) fn measure_case(rt: &impl Print, cases: &mut Cases<'_>) -> io::Result<()> {
    let mut parts = [0u8; PART_ROOM];
    say_field(rt, cases);
    let pattern = cases.pattern();
    let parted = cases.field(Kind::Numbers, &mut parts);
    measure(rt, &pattern, first(&parts, parted))
}
