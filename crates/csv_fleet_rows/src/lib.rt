// The rows of a fleet read from a CSV. This crate has definitions and laws only.
#![tactic(auto)]
