// A line: a letter, and numbers with a space before each. What each letter means is in tools/oracle/README.md.
use std::alloc::{AllocError, Global};

// As many numbers as a line may have.
const NUMBERS_MOST: usize = 32;

// The line that was read last.
#[derive(Drop)]
pub struct Line {
    pub letter: u8,
    numbers: Vec<u32>,
}

impl Line {
    // None yet.
    pub fn new(alloc: Global) -> Line {
        Line {
            letter: 0,
            numbers: Vec::new(alloc),
        }
    }

    // Reads a line, and tells whether it can be read.
    pub fn read(&mut self, text: &[u8]) -> Result<bool, AllocError> {
        self.numbers.clear();
        let Some((letter, rest)) = text.split_first() else {
            return Ok(false);
        };
        self.letter = *letter;
        let mut words = rest.split(|b| *b == b' ');
        if words.next().is_some_and(|word| !word.is_empty()) {
            return Ok(false);
        }
        for word in words {
            let Some(n) = number(word) else {
                return Ok(false);
            };
            if self.numbers.len() == NUMBERS_MOST {
                return Ok(false);
            }
            self.numbers.push(n)?;
        }
        Ok(true)
    }

    // A number, 0 past the last.
    pub fn number(&self, at: usize) -> u32 {
        self.numbers.get(at).copied().unwrap_or(0)
    }

    // The numbers from one on.
    pub fn from(&self, at: usize) -> &[u32] {
        self.numbers.get(at..).unwrap_or(&[])
    }
}

// The number of a word of digits, 0 of an empty one. A tenth digit begins anew with 0, where `parse` would refuse.
fn number(word: &[u8]) -> Option<u32> {
    word.iter().try_fold(0, |n, b| match b {
        b'0'..=b'9' => Some(joined(n, *b - b'0')),
        _ => None,
    })
}

// A number with a digit behind it; 0 past nine digits.
fn joined(n: u32, digit: u8) -> u32 {
    if n < 100000000 {
        n * 10 + u32::from(digit)
    } else {
        0
    }
}
