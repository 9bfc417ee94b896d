// What is told, and counted: each difference, with the script and the line. The Rust refuses nothing, so that a refusal is a difference.
use crate::line::Line;
use crate::tally::{Tally, add};
use model::Refusal;
use std::io::{Stdout, Write};
use std::{fmt, io};

// What is held to the Rust's.
#[derive(Clone, Copy)]
pub enum What {
    Number,
    Refusal,
    InstalmentSteps,
    Answer,
    Steps,
    AnswerSub,
    AnswerSup,
    AnswerName,
    Entries,
    Bounds,
    Visited,
    Level,
    Flags,
    Negation,
    Kind,
    X,
    Y,
    Z,
    FieldName,
    FieldEntry,
    FieldOptional,
    Bound,
    VisitedSub,
    VisitedSup,
    EqualLeft,
    EqualRight,
    Equals,
    Pending,
}

impl fmt::Display for What {
    fn fmt<W: fmt::Write>(&self, f: &mut fmt::Formatter<W>) -> fmt::Result {
        f.write_str(match self {
            What::Number => "number",
            What::Refusal => "refusal",
            What::InstalmentSteps => "steps of an instalment",
            What::Answer => "answer",
            What::Steps => "steps",
            What::AnswerSub => "answer's sub",
            What::AnswerSup => "answer's sup",
            What::AnswerName => "answer's name",
            What::Entries => "entries",
            What::Bounds => "bounds",
            What::Visited => "visited pairs",
            What::Level => "level",
            What::Flags => "flags",
            What::Negation => "negation",
            What::Kind => "kind",
            What::X => "x",
            What::Y => "y",
            What::Z => "z",
            What::FieldName => "field's name",
            What::FieldEntry => "field's entry",
            What::FieldOptional => "field's optional",
            What::Bound => "bound",
            What::VisitedSub => "visited pair's sub",
            What::VisitedSup => "visited pair's sup",
            What::EqualLeft => "equal pair's left",
            What::EqualRight => "equal pair's right",
            What::Equals => "equal pairs",
            What::Pending => "pending pairs",
        })
    }
}

// What is wrong with a line.
#[derive(Clone, Copy)]
pub enum Fault {
    Unreadable,
    NoLetter,
    NoRecord,
}

impl fmt::Display for Fault {
    fn fmt<W: fmt::Write>(&self, f: &mut fmt::Formatter<W>) -> fmt::Result {
        f.write_str(match self {
            Fault::Unreadable => "more than 32 numbers, or a byte that is no digit",
            Fault::NoLetter => "no letter that begins a line",
            Fault::NoRecord => "the record is not there",
        })
    }
}

// Where it is told, and the counts.
#[derive(Drop)]
pub struct Report {
    pub out: Stdout,
    pub tally: Tally,
}

impl Report {
    // Tells a difference, if there is one: where it is, what it is, the Rust's number and ours.
    pub fn expect(&mut self, what: What, expected: u32, came: u32) -> io::Result<()> {
        if expected == came {
            return Ok(());
        }
        self.print_place()?;
        writeln!(self.out, "{what}: expected {expected}, came {came}")
    }

    // Holds numbers to those of a line, each by its place there.
    pub fn expect_each(&mut self, line: &Line, held: &[(What, usize, u32)]) -> io::Result<()> {
        for &(what, at, came) in held {
            self.expect(what, line.number(at), came)?;
        }
        Ok(())
    }

    // A make's answer.
    pub fn made(&mut self, expected: u32, made: Result<u32, Refusal>) -> io::Result<()> {
        match made {
            Ok(n) => self.expect(What::Number, expected, n),
            Err(r) => self.refused(r),
        }
    }

    // The answer of a call that has nothing to say.
    pub fn done(&mut self, reply: Result<(), Refusal>) -> io::Result<()> {
        match reply {
            Ok(()) => Ok(()),
            Err(r) => self.refused(r),
        }
    }

    // Tells a refusal.
    fn refused(&mut self, r: Refusal) -> io::Result<()> {
        self.expect(What::Refusal, 0, refusals::number(r))
    }

    // A record's words; where it is not there, which is told, zeros.
    pub fn there(&mut self, record: Option<[u32; 3]>) -> io::Result<[u32; 3]> {
        match record {
            Some(r) => Ok(r),
            None => {
                self.fault(Fault::NoRecord)?;
                Ok([0; 3])
            }
        }
    }

    // Tells what is wrong with a line.
    pub fn fault(&mut self, fault: Fault) -> io::Result<()> {
        self.print_place()?;
        writeln!(self.out, "{fault}")
    }

    // Where in the file a difference is.
    fn print_place(&mut self) -> io::Result<()> {
        add(&mut self.tally.differences, 1);
        let script = self.tally.scripts;
        let line = self.tally.lines;
        write!(self.out, "script {script}, line {line}, ")
    }

    // All counts.
    pub fn print_tally(&mut self) -> io::Result<()> {
        write!(self.out, "{}", self.tally)
    }
}
