// No code: what holds of hex frames and of the program stands in specs/.
#![tactic(auto)]
