// Shares moved between two boats that hold some, the total kept, over any problem: specs/ and proofs/, and there is no code.
#![tactic(auto)]
