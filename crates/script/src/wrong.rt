// Lines that are wrong: each is told with its number and why, and changes nothing.
use crate::desk::Desk;
use crate::print::Quoted;
use crate::text::NotANumber;
use crate::verbs::Verb;
use std::io::Write;
use std::{fmt, io};

// Why a line is wrong.
#[derive(Clone, Copy, Debug)]
pub enum Why<'a> {
    // Of itself,
    NoQuestion,
    NotOnce,
    ManyFields,
    ManyLabels,
    ManyLevels,

    // with a word that is told,
    NotBefore(&'a [u8]),
    NoVerb(&'a [u8]),
    NoRegion(&'a [u8]),
    Number(NotANumber, &'a [u8]),
    Long(&'a [u8]),
    NotListed(&'a [u8]),
    NoPlace(&'a [u8]),

    // and by how many words stand behind its verb, one that takes so many numbers, another, or one of so many fields.
    Numbers {
        verb: Verb,
        takes: usize,
        got: usize,
    },
    Count {
        verb: Verb,
        got: usize,
    },
    Fields {
        count: u32,
        takes: usize,
        got: usize,
    },
}

impl fmt::Display for Why<'_> {
    fn fmt<W: fmt::Write>(&self, f: &mut fmt::Formatter<W>) -> fmt::Result {
        match *self {
            Why::NoQuestion => write!(f, "held and open stand before ask or equal"),
            Why::NotOnce => write!(f, "held stands before open, each once"),
            Why::ManyFields => write!(f, "attr takes at most 4096 fields"),
            Why::ManyLabels => write!(f, "a table takes at most 1024 label words"),
            Why::ManyLevels => {
                write!(f, "level goes at most 1000 levels up or down on one line")
            }
            Why::NotBefore(word) => write!(
                f,
                "held and open stand before ask or equal, not before {}",
                Quoted(word)
            ),
            Why::NoVerb(word) => write!(f, "no verb {}", Quoted(word)),
            Why::NoRegion(word) => write!(f, "no region {}", Quoted(word)),
            Why::Number(NotANumber::Large, word) => {
                write!(f, "{} is over 4294967295", Quoted(word))
            }
            Why::Number(NotANumber::NoNumber, word) => {
                write!(f, "{} is no number from 0 to 4294967295", Quoted(word))
            }
            Why::Long(word) => write!(f, "{} has more than 255 bytes", Quoted(word)),
            Why::NotListed(word) => write!(f, "{} is not in the name list", Quoted(word)),
            Why::NoPlace(word) => write!(
                f,
                "{} does not fit the name list: at most 4096 names and 65535 bytes",
                Quoted(word)
            ),
            Why::Numbers {
                verb,
                takes: 1,
                got,
            } => write!(f, "{verb} takes 1 number, got {got}"),
            Why::Numbers { verb, takes, got } => {
                write!(f, "{verb} takes {takes} numbers, got {got}")
            }
            Why::Count { verb, got } => {
                write!(f, "{verb} takes {}, got {got}", what_takes(verb))
            }
            Why::Fields {
                count: 1,
                takes,
                got,
            } => write!(f, "attr of 1 field takes {takes} words, got {got}"),
            Why::Fields { count, takes, got } => {
                write!(f, "attr of {count} fields takes {takes} words, got {got}")
            }
        }
    }
}

// What a verb takes that takes no fixed number of numbers.
fn what_takes(verb: Verb) -> &'static str {
    match verb {
        Verb::Attr => "OPEN DYN N and N times NAME E OPT",
        Verb::Named => "an entry and a label",
        Verb::Names => "at most 4096 names",
        Verb::Find => "1 name",
        Verb::Record => "a region and a number",
        Verb::Work => "1 number or none",
        Verb::Limit => "a number or -1",
        _ => "",
    }
}

// Tells why a line is wrong, and counts it.
pub fn wrong<W: Write>(out: &mut W, desk: &mut Desk<'_>, why: Why<'_>) -> io::Result<()> {
    desk.wrong = desk.wrong.wrapping_add(1);
    writeln!(out, "error line {}: {why}", desk.line)
}
