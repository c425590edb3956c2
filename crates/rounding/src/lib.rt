// What it is to round a fraction once: defined in specs/Nearest.antt, and proved in specs/Laws of the rounding that contracts cite.

#![tactic(auto)]
