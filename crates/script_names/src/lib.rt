// What the words of a script stand for in a table: names, labels, and the fields of an attrset; and the answers, told on one line.

#![tactic(auto)]

pub mod answers;
pub mod fields;
pub mod labels;
pub mod name_lists;
