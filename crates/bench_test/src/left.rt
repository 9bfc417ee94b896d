// What stands in a table after its questions: how many entries, those that the questions made, the bounds, and the visited pairs.
use model::{Entry, Record, Refusal};
use std::fmt;

// How many entries the table has before a question.
const TABLE: u32 = 15;

// More records than a region has here.
const MOST: u32 = 40;

// All of it, shown in one line.
#[derive(Clone, Copy)]
pub struct Left<'a>(pub &'a [u32]);

impl fmt::Display for Left<'_> {
    fn fmt<W: fmt::Write>(&self, f: &mut fmt::Formatter<W>) -> fmt::Result {
        let words = self.0;
        let entries = count(words, image::format::ENTRIES);
        write!(f, "{entries} entries")?;
        for n in TABLE..entries {
            write!(f, ", {n} is {}", Made(sheafwinch::entry(words, n)))?;
        }
        for (name, region) in [
            ("bounds", image::format::BOUNDS),
            ("visited", image::format::VISITED),
        ] {
            write!(f, "; {name}{}", Records { words, region })?;
        }
        Ok(())
    }
}

// How many records a region has: the first number that is refused.
pub fn count(words: &[u32], region: u32) -> u32 {
    (0..MOST)
        .find(|&n| sheafwinch::record(words, region, n).is_err())
        .unwrap_or(MOST)
}

// An entry, as it is read, of a kind that a question makes.
#[derive(Clone, Copy)]
struct Made(Result<Entry, Refusal>);

impl fmt::Display for Made {
    fn fmt<W: fmt::Write>(&self, f: &mut fmt::Formatter<W>) -> fmt::Result {
        match self.0 {
            Ok(Entry::Lambda { param, body }) => write!(f, "lambda({param},{body})"),
            Ok(Entry::Neg(n)) => write!(f, "neg {n}"),
            Ok(Entry::Union(left, right)) => write!(f, "union({left},{right})"),
            Ok(_) => write!(f, "ANOTHER KIND"),
            Err(_) => write!(f, "REFUSED"),
        }
    }
}

// The records of a region.
#[derive(Clone, Copy)]
struct Records<'a> {
    words: &'a [u32],
    region: u32,
}

impl fmt::Display for Records<'_> {
    fn fmt<W: fmt::Write>(&self, f: &mut fmt::Formatter<W>) -> fmt::Result {
        let end = count(self.words, self.region);
        if end == 0 {
            write!(f, " none")?;
        }
        for n in 0..end {
            let record = sheafwinch::record(self.words, self.region, n);
            write!(f, " {}", Stored(record))?;
        }
        Ok(())
    }
}

// A bound: its variable, 0 lower or 1 upper, and the bound; or a visited pair.
#[derive(Clone, Copy)]
struct Stored(Result<Record, Refusal>);

impl fmt::Display for Stored {
    fn fmt<W: fmt::Write>(&self, f: &mut fmt::Formatter<W>) -> fmt::Result {
        match self.0 {
            Ok(
                Record::Bound {
                    variable,
                    side,
                    bound,
                },
            ) => { write!(f, "({variable},{side},{bound})") }
            Ok(Record::Visited { sub, sup }) => write!(f, "({sub},{sup})"),
            _ => write!(f, "ANOTHER RECORD"),
        }
    }
}
