// Short texts with the tokens of their fields, as theorems about the definitions. There is no code.
#![tactic(auto)]
