// No code: what the rules on types mean, from lattice.rs, and the laws of that stand in specs/; code stands in assignable, candidates and joins.
#![tactic(auto)]
