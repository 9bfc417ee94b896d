// What the calls answer, told in words: answers and failures, a field by its name in a lent name list; the names of refusals and regions.
// A name may hold any bytes, so what tells one is a function on a writer and no `Display`.

#![tactic(auto)]

use model::{Answer, Failure, Instalment, Refusal};
use std::io::Write;
use std::{fmt, io};

// A region, by its number.
#[derive(Clone, Copy, PartialEq, Eq)]
pub enum Region {
    Entries = 1,
    Fields = 2,
    Bounds = 3,
    Visited = 4,
    Pending = 5,
    Equals = 6,
}

// A number or a word that is no region's.
#[derive(Clone, Copy, PartialEq, Eq)]
pub struct NoRegion;

impl TryFrom<u32> for Region {
    type Error = NoRegion;

    fn try_from(number: u32) -> Result<Region, NoRegion> {
        match number {
            1 => Ok(Region::Entries),
            2 => Ok(Region::Fields),
            3 => Ok(Region::Bounds),
            4 => Ok(Region::Visited),
            5 => Ok(Region::Pending),
            6 => Ok(Region::Equals),
            _ => Err(NoRegion),
        }
    }
}

impl TryFrom<&[u8]> for Region {
    type Error = NoRegion;

    fn try_from(word: &[u8]) -> Result<Region, NoRegion> {
        match word {
            b"entries" => Ok(Region::Entries),
            b"fields" => Ok(Region::Fields),
            b"bounds" => Ok(Region::Bounds),
            b"visited" => Ok(Region::Visited),
            b"pending" => Ok(Region::Pending),
            b"equals" => Ok(Region::Equals),
            _ => Err(NoRegion),
        }
    }
}

impl fmt::Display for Region {
    fn fmt<W: fmt::Write>(&self, f: &mut fmt::Formatter<W>) -> fmt::Result {
        f.write_str(match self {
            Region::Entries => "entries",
            Region::Fields => "fields",
            Region::Bounds => "bounds",
            Region::Visited => "visited",
            Region::Pending => "pending",
            Region::Equals => "equals",
        })
    }
}

// A refusal, shown by its number and name in 01.
#[derive(Clone, Copy)]
pub struct Named(pub Refusal);

impl fmt::Display for Named {
    fn fmt<W: fmt::Write>(&self, f: &mut fmt::Formatter<W>) -> fmt::Result {
        let number = refusals::number(self.0);
        let name = match self.0 {
            Refusal::BadTable => "BAD TABLE",
            Refusal::BadNumber => "BAD NUMBER",
            Refusal::Busy => "BUSY",
            Refusal::Idle => "IDLE",
            Refusal::NoRoom(_) => "NO ROOM",
            Refusal::TooDeep => "TOO DEEP",
            Refusal::BadFields => "BAD FIELDS",
            Refusal::Broken { .. } => "BROKEN",
            Refusal::BadCapacity => "BAD CAPACITY",
            Refusal::Level => "LEVEL",
            Refusal::NotAVariable => "NOT A VARIABLE",
            Refusal::BadNames => "BAD NAMES",
        };
        write!(f, "{number} {name}")
    }
}

// An answer or the refusal of a step, and the steps of its instalment.
pub fn print_instalment<W: Write>(out: &mut W, list: &[u8], done: Instalment) -> io::Result<()> {
    let Instalment { answer, steps } = done;
    match answer {
        Ok(Answer::Yes) => write!(out, "yes")?,
        Ok(Answer::More) => write!(out, "MORE")?,
        Ok(Answer::Failed(f)) => print_failure(out, list, f)?,
        Err(r) => print_refusal(out, list, r)?,
    }
    if steps == 1 {
        write!(out, ", 1 step")
    } else {
        write!(out, ", {steps} steps")
    }
}

// Why a question failed: a pair that does not fit, or a field that is missing and the pair that lacks it.
fn print_failure<W: Write>(out: &mut W, list: &[u8], f: Failure) -> io::Result<()> {
    match f {
        Failure::Mismatch { sub, sup } => write!(out, "mismatch ({sub},{sup})"),
        Failure::MissingField { sub, sup, name } => {
            write!(out, "missing field ")?;
            out.write_all(names::show(list, name))?;
            write!(out, " in ({sub},{sup})")
        }
    }
}

// A refusal, by its number and its name in 01, and what it carries.
pub fn print_refusal<W: Write>(out: &mut W, list: &[u8], r: Refusal) -> io::Result<()> {
    let named = Named(r);
    write!(out, "refused {named}")?;
    match r {
        Refusal::NoRoom(region) => write!(out, "({region})"),
        Refusal::Broken {
            kind,
            sub,
            sup,
            name,
        } => {
            write!(out, ", kind {kind}, ")?;
            print_failure(out, list, kept_failure(kind, sub, sup, name))
        }
        _ => Ok(()),
    }
}

// The failure that break words keep.
fn kept_failure(kind: u32, sub: u32, sup: u32, name: u32) -> Failure {
    if kind == image::format::FIELD_MISSING {
        Failure::MissingField { sub, sup, name }
    } else {
        Failure::Mismatch { sub, sup }
    }
}
