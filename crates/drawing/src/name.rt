// A name's bytes in a label. What is shown has printable ASCII alone and tells the name exactly: a backslash is shown as two, and each
// byte that is not printable as \xNN. Between DOT's quotes a backslash is written twice and a quote behind one; an ampersand would
// begin one of HTML's characters.
use std::fmt;

// A name, or its number where the list has no such name.
#[derive(Clone, Copy)]
pub struct Name<'a> {
    pub list: &'a [u8],
    pub number: u32,
}

impl fmt::Display for Name<'_> {
    fn fmt<W: fmt::Write>(&self, f: &mut fmt::Formatter<W>) -> fmt::Result {
        let number = self.number;
        match names::check_name(self.list, number) {
            Ok(()) => write_text(f, names::show(self.list, number)),
            Err(_) => write!(f, "name {number}"),
        }
    }
}

// Each byte.
fn write_text<W: fmt::Write>(f: &mut fmt::Formatter<W>, text: &[u8]) -> fmt::Result {
    for byte in text {
        match *byte {
            b'"' => write!(f, "\\\"")?,
            b'\\' => write!(f, "\\\\\\\\")?,
            b'&' => write!(f, "&amp;")?,
            plain @ b' '..=b'~' => write!(f, "{}", char::from(plain))?,
            odd => write!(f, "\\\\x{odd:02x}")?,
        }
    }
    Ok(())
}
