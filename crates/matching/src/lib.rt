// The matching bound L4: where the rows start in the list, and the search for augmenting paths.
#![tactic(auto)]

pub mod augmenting;
pub mod starts;
