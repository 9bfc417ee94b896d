// A table of winch shown: whole, its header, an entry, a record. Names and labels may have any bytes, so what shows them writes them and
// is no `Display`.

#![tactic(auto)]

pub mod dump;
pub mod header;
pub mod records;
pub mod shown;
