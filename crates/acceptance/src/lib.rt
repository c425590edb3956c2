// What is proved of reading and matching together: in specs/Acceptance.antt. There is no code of its own.

#![tactic(auto)]
