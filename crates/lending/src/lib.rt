// Slices that a function is lent, as contracts have them. There is no code here: specs/ has the definitions.
#![tactic(auto)]
