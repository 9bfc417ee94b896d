// The three demands, over the calls of any face, and over every sequence of calls from start: definitions and laws alone, no code.

#![tactic(auto)]
