// No code: what is written is read back and what is read is written back, and what a part of a table suffices for.
#![tactic(auto)]
