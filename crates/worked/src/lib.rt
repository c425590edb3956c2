// Document 01's worked examples, from their texts: the table and its theorem are in specs/, and there is no code of its own.

#![tactic(auto)]
