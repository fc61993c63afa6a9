// What a class table of several layers means in the words of its rows, and that the tables of the code say the same: laws alone, no function.
#![tactic(auto)]
