// No code: that rows as slices and rows as lines come to the same stands in specs/.
#![tactic(auto)]
