// What is proved of reading and printing together: in specs/Laws.

#![tactic(auto)]
