// What the scope paper demands of the whole, stated and proved in specs/ from the laws of the crates below. No code.
#![tactic(auto)]
