// Stored ads by their trees: the definitions and theorems are in specs/, and there is no code of its own.

#![tactic(auto)]
