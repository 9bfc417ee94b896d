// A record as it stands, word by word.
use model::Record;
use std::io;
use std::io::Write;

// Record n of a region.
pub fn tell_record<W: Write>(out: &mut W, n: u32, r: Record) -> io::Result<()> {
    match r {
        Record::Entry {
            kind,
            x,
            y,
            z,
            flags,
            spread,
            negation,
        } => {
            write!(out, "entries {n} : kind {kind} x {x} y {y} z {z}")?;
            writeln!(out, " flags {flags} spread {spread} negation {negation}")
        }
        Record::Field {
            name,
            entry,
            optional,
        } => writeln!(
            out,
            "fields {n} : name {name} entry {entry} optional {optional}"
        ),
        Record::Bound {
            variable,
            side,
            bound,
        } => writeln!(
            out,
            "bounds {n} : variable {variable} side {side} bound {bound}"
        ),
        Record::Visited { sub, sup } => writeln!(out, "visited {n} : sub {sub} sup {sup}"),
        Record::Pending { sub, sup } => writeln!(out, "pending {n} : sub {sub} sup {sup}"),
        Record::Equal { left, right } => { writeln!(out, "equals {n} : left {left} right {right}") }
    }
}
