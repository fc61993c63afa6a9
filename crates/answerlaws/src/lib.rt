// No code: that answers are legal types stands in specs/.
#![tactic(auto)]
