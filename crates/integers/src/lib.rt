// Laws of the integers, and of lists filled slot by slot, for the proofs of the other crates: proofs/ holds all of it, and there is no code.
#![tactic(auto)]
