// No code: what a solve over slices means, what it gives where it is not refused, and when it is refused stand in specs/.
#![tactic(auto)]
