// No functions: a written split reads back as the same split; what is read is what the text's lines say, and may be written.
#![tactic(auto)]
