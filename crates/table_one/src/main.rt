// Patterns of Table 1 of document 004 at 3 percent. Each is one search, run with a budget of 1,000,000, the most that a call takes, again and again.
// The searches of karate, divorce, cage5, Sandi_authors and chesapeake end, at the published volumes 8, 8, 14, 4 and 16. Those of mesh1e1,
// impcol_b and steam3, which did not end within hundreds of millions of tries, are stopped after 10 runs.
// divorce, cage5, mesh1e1 and chesapeake are read off pictures of the patterns; steam3's stored zeros are restored by filling its 4 by 4 blocks, which is an inference.
// Then the symmetric form of each symmetric pattern: what it gives is held byte by byte against what the general form gives.
// mesh1e1 has a form with values too, which are made up.
#![tactic(auto)]

mod figures;
mod files;
mod finishing;
mod forms;

use crate::finishing::print_file;
use crate::forms::print_forms;
use std::io;

// More runs than any of the searches that end takes: the longest takes 237.
const TO_THE_END: u64 = 400;

// Runs of a search that is stopped.
const SOME: u64 = 10;

// Every file in the order of the table, then the forms of the symmetric ones.
fn main(rt: HostRuntime) -> io::Result<()> {
    print_file(&rt, "karate.mtx", TO_THE_END)?;
    print_file(&rt, "divorce.mtx", TO_THE_END)?;
    print_file(&rt, "cage5.mtx", TO_THE_END)?;
    print_file(&rt, "Sandi_authors.mtx", TO_THE_END)?;
    print_file(&rt, "mesh1e1.mtx", SOME)?;
    print_file(&rt, "impcol_b.mtx", SOME)?;
    print_file(&rt, "chesapeake.mtx", TO_THE_END)?;
    print_file(&rt, "steam3.mtx", SOME)?;
    print_forms(&rt, "karate.mtx", "karate_symmetric.mtx")?;
    print_forms(&rt, "cage5.mtx", "cage5_symmetric.mtx")?;
    print_forms(&rt, "Sandi_authors.mtx", "Sandi_authors_symmetric.mtx")?;
    print_forms(&rt, "mesh1e1.mtx", "mesh1e1_symmetric.mtx")?;
    print_forms(&rt, "mesh1e1.mtx", "mesh1e1_real.mtx")?;
    print_forms(&rt, "chesapeake.mtx", "chesapeake_symmetric.mtx")?;
    print_forms(&rt, "steam3.mtx", "steam3_symmetric.mtx")
}
