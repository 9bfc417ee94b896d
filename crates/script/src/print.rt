// A word of the script in quotes.
use std::fmt;

// How many bytes of a word are quoted.
const QUOTED: usize = 40;

// A word of the script in quotes, cut where it is long; a byte that a terminal might not show as its number.
#[derive(Clone, Copy)]
pub struct Quoted<'a>(pub &'a [u8]);

impl fmt::Display for Quoted<'_> {
    fn fmt<W: fmt::Write>(&self, f: &mut fmt::Formatter<W>) -> fmt::Result {
        let Quoted(word) = *self;
        f.write_str("\"")?;
        for byte in word.iter().take(QUOTED) {
            match *byte {
                b'"' | b'\\' => write!(f, "\\{}", char::from(*byte))?,
                b' '..=b'~' => f.write_char(char::from(*byte))?,
                _ => write!(f, "\\x{byte:02x}")?,
            }
        }
        f.write_str(if QUOTED < word.len() { "..\"" } else { "\"" })
    }
}
