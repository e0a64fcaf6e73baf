// A fleet written as CSV, and that it reads back: specs/ and proofs/, and there is no code.
#![tactic(auto)]
