// No code: how numbers, lists and types stand to each other, by std's Ordering. What is asked of an order, and its laws, stand in specs/.
#![tactic(auto)]
