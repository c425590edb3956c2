// What nodes are worth, and what a run leaves: the definitions are in specs/, and there is no code of its own.

#![tactic(auto)]
