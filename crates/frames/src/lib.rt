// No code: what a hex frame makes of the tables and says, and what the program prints, stand in specs/.
#![tactic(auto)]
