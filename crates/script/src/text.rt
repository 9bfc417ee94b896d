// The script's text: lines, words and numbers.
ghost use Rattle.std.specs.Prelude.{◌≤◌, length};
ghost use Rattle.std.specs.Iterator.{at_most};

use std::str;

// A line without its end, and the script behind it.
#[derive(Clone, Copy)]
pub struct Line<'a> {
    pub text: &'a [u8],
    pub behind: &'a [u8],
}

// The lines of a script; one that ends the script without a line's end is a line too.
#[derive(Clone, Copy)]
pub struct Lines<'a> {
    pub rest: &'a [u8],
}

impl<'a> Iterator for Lines<'a> {
    type Item = Line<'a>;

    ghost remaining = { λ s. at_most (length s.rest.now) };

    fn next(&mut self) -> Option<Line<'a>> {
        if self.rest.is_empty() {
            return None;
        }
        let end = self
            .rest
            .iter()
            .position(|byte| *byte == b'\n')
            .unwrap_or(self.rest.len());
        let (text, rest) = self.rest.split_at(end);
        self.rest = rest.get(1..).unwrap_or(b"");
        Some(Line {
            text,
            behind: self.rest,
        })
    }
}

// The words of a line: what stands between its blanks.
#[derive(Clone, Copy)]
pub struct Words<'a> {
    pub rest: &'a [u8],
}

// The words of a line end at its comment, if it has one.
impl<'a> From<&'a [u8]> for Words<'a> {
    ghost from_gives = { λ line words. length words.rest.now ≤ length line.now };

    fn from(line: &'a [u8]) -> Words<'a> {
        Words {
            rest: line.split(|byte| *byte == b'#').next().unwrap_or(b""),
        }
    }
}

impl<'a> Iterator for Words<'a> {
    type Item = &'a [u8];

    ghost remaining = { λ s. at_most (length s.rest.now) };

    fn next(&mut self) -> Option<&'a [u8]> {
        let text = self.rest.trim_ascii_start();
        let (_, behind) = text.split_first()?;
        let end = behind
            .iter()
            .position(|byte| byte.is_ascii_whitespace())
            .unwrap_or(behind.len());
        self.rest = &behind[end..];
        Some(&text[..1 + end])
    }
}

// Why a word is no number that a script may have: it is over 4294967295, or no number in decimal at all.
#[derive(Clone, Copy, Debug, PartialEq, Eq)]
pub enum NotANumber {
    Large,
    NoNumber,
}

// A word as a number in decimal.
pub fn number_in(word: &[u8]) -> Result<u32, NotANumber> {
    if word.is_empty() || !word.iter().all(|byte| byte.is_ascii_digit()) {
        return Err(NotANumber::NoNumber);
    }
    let digits = str::from_utf8(word).map_err(|_| NotANumber::NoNumber)?;
    digits.parse().map_err(|_| NotANumber::Large)
}

// Whether a word is a minus and a number.
pub fn is_negative(word: &[u8]) -> bool {
    match word.strip_prefix(b"-") {
        Some(digits) => number_in(digits) != Err(NotANumber::NoNumber),
        None => false,
    }
}
