// A problem with factors and its plain twin, whose columns stand as often as the factors say: specs/ and proofs/, and there is no code.
#![tactic(auto)]
