// What is kept of a marking while marks are placed and lifted: definitions and laws. There are no functions here.
#![tactic(auto)]
