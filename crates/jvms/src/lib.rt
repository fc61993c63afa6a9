// No code: the grammar of JVMS 4.3 and the theorems about the descriptor readers stand in specs/.
#![tactic(auto)]
