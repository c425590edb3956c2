// What is proved of reading, printing and matching together, in terms of what callers hold: in specs/. There is no code of its own.

#![tactic(auto)]
