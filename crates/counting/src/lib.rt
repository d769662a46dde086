// Sums, counts and tests over the numbers below a bound: specs/ defines them, and proofs/ has their laws. There is no code here.
#![tactic(auto)]
