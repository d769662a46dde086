// Caps from percentages.
use model::{Capped, Refusal};
use pattern::cap::cap_from_percent;
use std::io;
use testing::cases::Cases;
use testing::saying::say_refused;

// A cap and its rest, or a refusal.
fn say_cap(rt: &impl Print, answer: Result<Capped, Refusal>) -> io::Result<()> {
    match answer {
        Ok(Capped { cap, rest }) => print!(rt; " {cap} rest {rest}"),
        Err(refusal) => {
            say_refused(rt, refusal);
            Ok(())
        }
    }
}

// The cap from a percentage.
pub(crate) fn cap(rt: &impl Print, cases: &mut Cases<'_>) -> io::Result<()> {
    let nonzeros = cases.number();
    let percent = cases.number();
    print!(rt; "cap from {nonzeros} at {percent} percent")?;
    say_cap(rt, cap_from_percent(nonzeros, percent))?;
    println!(rt)
}
