// A call that a case gives: name, sizes, list, cap 0, cap 1, budget, and how many bytes are lent for parts and for figures.
use crate::lending::{Call, lend};
use std::io;
use testing::cases::Cases;
use testing::saying::say_field;

// Makes the call of a case.
pub(crate) fn call(rt: &impl Print, cases: &mut Cases<'_>) -> io::Result<()> {
    say_field(rt, cases);
    let call = Call {
        pattern: cases.pattern(),
        caps: cases.caps(),
        budget: cases.number(),
    };
    let parts = cases.number();
    let figures = cases.number();
    lend(rt, &call, parts as usize, figures as usize)
}
