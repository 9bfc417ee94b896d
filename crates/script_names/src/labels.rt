// Labels of named entries. In the table a label is a number: a word that is one is that number, and other words are numbered in the
// order of their first use in a table, from FIRST on. The desk keeps these.
use script::text::number_in;
use script::wrong::Why;
use std::alloc::AllocError;
use std::io;
use std::io::Write;

// A table takes at most so many label words.
pub const MOST: usize = 1024;

// The number of the first label word.
const FIRST: u32 = 4294901760;

// The number of a label; a new word gets the next, and is not kept.
pub fn label_number<'a>(labels: &[&[u8]], word: &'a [u8]) -> Result<u32, Why<'a>> {
    match number_in(word) {
        Ok(n) if (n < FIRST) & !is_padded(word) => Ok(n),
        _ => label_word(labels, word),
    }
}

// Whether a number has a zero before it.
fn is_padded(word: &[u8]) -> bool {
    matches!(word, [b'0', _, ..])
}

// The number of a label word.
fn label_word<'a>(labels: &[&[u8]], word: &'a [u8]) -> Result<u32, Why<'a>> {
    let at = labels
        .iter()
        .position(|label| *label == word)
        .unwrap_or(labels.len());
    if at < MOST {
        Ok(FIRST + at as u32)
    } else {
        Err(Why::ManyLabels)
    }
}

// Keeps the word of a label's number, if it is new.
pub fn keep_new<'a>(
    labels: &mut Vec<&'a [u8]>,
    number: u32,
    word: &'a [u8],
) -> Result<(), AllocError> {
    if kept_at(number) == Some(labels.len()) {
        labels.push(word)?;
    }
    Ok(())
}

// Where a label word is kept; a label that is a number itself is kept nowhere.
fn kept_at(number: u32) -> Option<usize> {
    Some(number.checked_sub(FIRST)? as usize)
}

// A label as the script has it.
pub fn print_label<W: Write>(out: &mut W, labels: &[&[u8]], n: u32) -> io::Result<()> {
    match kept_at(n) {
        Some(at) => out.write_all(labels.get(at).copied().unwrap_or(b"")),
        None => write!(out, "{n}"),
    }
}
