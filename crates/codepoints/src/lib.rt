// No code: UTF-8 by code points, and that it is the UTF-8 of Unicode's table 3-7, stand in specs/.
#![tactic(auto)]
