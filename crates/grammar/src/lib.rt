// What is proved of the grammar and the reader's definition together: in specs/Laws.

#![tactic(auto)]
