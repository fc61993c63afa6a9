// No code: that what the frames of rows and questions leave is what the definition says stands in specs/.
#![tactic(auto)]
