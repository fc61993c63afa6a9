// No code: what a question that is not refused gives, which number comes back when, and examples from columns stand in specs/.
#![tactic(auto)]
