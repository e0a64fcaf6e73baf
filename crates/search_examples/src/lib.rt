// The marked sheets: ten small fleets and sheets with their answers, as theorems about the definitions. There is no code.
#![tactic(auto)]
