// No functions: that the numbers of a CSV are read as their figures say is a theorem about the definitions of `csv`.
#![tactic(auto)]
