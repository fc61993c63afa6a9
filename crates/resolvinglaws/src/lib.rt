// No code: that a table's bounds, copied as words one kind after the other, are what the functions of resolving ask.
#![tactic(auto)]
