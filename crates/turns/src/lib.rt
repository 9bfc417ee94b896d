// A call by its tests, one after the other: laws alone, no code.

#![tactic(auto)]
