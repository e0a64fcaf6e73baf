// Rows of fields written as CSV, and that they read back: specs/ and proofs/, and there is no code.
#![tactic(auto)]
