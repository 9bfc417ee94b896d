// The words of the bench table of document 01, made by the calls.
// proofs/Words.antt says that the model makes the same words.
use bench_table::{make_table, room};
use std::io;
use std::io::Write;

// The table's words, 16 to a line.
pub fn print_table<W: Write>(out: &mut W) -> io::Result<()> {
    let mut words = room();
    make_table(&mut words);
    write!(out, "The bench table's words:")?;
    for (at, word) in words.iter().enumerate() {
        let before = if at % 16 == 0 { '\n' } else { ' ' };
        write!(out, "{before}{word}")?;
    }
    writeln!(out)
}
