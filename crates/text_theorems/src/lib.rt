// What is proved of reading and printing from their contracts: in specs/.

#![tactic(auto)]
