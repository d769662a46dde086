// From what is kept of a marking to its validity and its bound: laws. There are no functions here.
#![tactic(auto)]
