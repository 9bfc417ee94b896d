// What the calls answer, told on one line: refusals by their number and name in 01; and why a line is not obeyed to its end.
use model::{Failure, Refusal};
use script::wrong::Why;
use std::alloc::{AllocError, AllocFailed};
use std::io;
use std::io::Write;
use told_in_words::{Named, NoRegion, Region};

// Why a line is not obeyed to its end: it is wrong, it is refused, or nothing more can be written or kept.
#[derive(Drop)]
pub enum Stop<'a> {
    Wrong(Why<'a>),
    Refused(Refusal),
    Io(io::Error),
}

impl<'a> From<Why<'a>> for Stop<'a> {
    fn from(why: Why<'a>) -> Stop<'a> {
        Stop::Wrong(why)
    }
}

impl From<Refusal> for Stop<'_> {
    fn from(r: Refusal) -> Self {
        Stop::Refused(r)
    }
}

impl From<io::Error> for Stop<'_> {
    fn from(error: io::Error) -> Self {
        Stop::Io(error)
    }
}

impl From<AllocError> for Stop<'_> {
    fn from(error: AllocError) -> Self {
        Stop::Io(io::Error::from(error))
    }
}

impl<T: Drop> From<AllocFailed<T>> for Stop<'_> {
    fn from(error: AllocFailed<T>) -> Self {
        Stop::from(AllocError::from(error))
    }
}

// Tells a refusal.
pub fn tell_refusal<W: Write>(out: &mut W, names: &[u8], r: Refusal) -> io::Result<()> {
    print_refusal(out, names, r)?;
    writeln!(out)
}

// A refusal, by its number and its name in 01, and what it carries.
pub fn print_refusal<W: Write>(out: &mut W, names: &[u8], r: Refusal) -> io::Result<()> {
    let named = Named(r);
    write!(out, "refused {named}")?;
    match r {
        Refusal::NoRoom(region) => match Region::try_from(region) {
            Ok(region) => write!(out, " {region}"),
            Err(NoRegion) => write!(out, " "),
        },
        Refusal::Broken {
            kind: image::format::FIELD_MISSING,
            sub,
            sup,
            name,
        } => {
            write!(out, " ")?;
            print_break(out, names, Failure::MissingField { sub, sup, name })
        }
        Refusal::Broken { sub, sup, .. } => {
            write!(out, " ")?;
            print_break(out, names, Failure::Mismatch { sub, sup })
        }
        _ => Ok(()),
    }
}

// Why a question failed: a pair that does not fit, or that lacks a field. A field's name may have any bytes, so this is no Display.
pub fn print_break<W: Write>(out: &mut W, names: &[u8], failure: Failure) -> io::Result<()> {
    match failure {
        Failure::Mismatch { sub, sup } => write!(out, "mismatch {sub} {sup}"),
        Failure::MissingField { sub, sup, name } => {
            write!(out, "missing {sub} {sup} ")?;
            out.write_all(names::show(names, name))
        }
    }
}
