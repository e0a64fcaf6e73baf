// What the test programs draw for a call beside its files: the factors of a sheet, tables of shares, released sets. tests/generator.py does the same
// in Python, draw for draw.
#![tactic(auto)]

pub mod factored;
pub mod sets;
pub mod tables;
