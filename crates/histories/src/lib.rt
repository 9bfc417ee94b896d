// Histories, over any rule: definitions and laws alone, no code.

#![tactic(auto)]
