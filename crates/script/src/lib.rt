// The scripts of winch as text, one verb to a line: words and numbers, the verbs, lines that are wrong, and what the program keeps beside
// its table.

#![tactic(auto)]

pub mod args;
pub mod desk;
pub mod first_words;
pub mod help;
pub mod print;
pub mod settings;
pub mod text;
pub mod verbs;
pub mod wrong;
