// No code: a table whose searches need not all read the same view, and that one view for all answers as it does by itself.
#![tactic(auto)]
