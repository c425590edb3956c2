// What is proved of a roster's contract, for a caller who holds only that.

#![tactic(auto)]
