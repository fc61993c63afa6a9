// No code: a chain of checks as one list, and its laws, stand in specs/.
#![tactic(auto)]
