// No code: the bytes of an ASCII text, so that definitions and examples can be read, stand in specs/.
#![tactic(auto)]
