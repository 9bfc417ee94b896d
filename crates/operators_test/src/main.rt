// What the engine stands on, printed: the table of the operators on primitives, and name lists.

#![tactic(auto)]

mod name_list;

use model::Refusal;
use operators::{Operator, Primitive};
use std::io;
use std::io::Write;

// The operators, by name.
const OPERATORS: [(Operator, &str); 4] = [
    (Operator::Add, "Add"),
    (Operator::Sub, "Sub"),
    (Operator::Mul, "Mul"),
    (Operator::Div, "Div"),
];

// The primitives, by name.
const PRIMITIVES: [(Primitive, &str); 8] = [
    (Primitive::Null, "Null"),
    (Primitive::Bool, "Bool"),
    (Primitive::Int, "Int"),
    (Primitive::Float, "Float"),
    (Primitive::String, "String"),
    (Primitive::Path, "Path"),
    (Primitive::Uri, "Uri"),
    (Primitive::Number, "Number"),
];

fn main(rt: HostRuntime) -> io::Result<()> {
    let mut out = rt.stdout();
    writeln!(
        out,
        "The operators: a row for each left primitive, a column for each right one.
alone: known from the left alone; once: bound at once; -: none."
    )?;
    for (op, name) in OPERATORS {
        print_operator(&mut out, op as u32, name)?;
    }
    name_list::print_lists(&mut out)
}

// An operator's table, under its name.
fn print_operator<W: Write>(out: &mut W, op: u32, name: &str) -> io::Result<()> {
    write!(out, "\n{name:>8}")?;
    for (_, right) in PRIMITIVES {
        write!(out, "{right:>8}")?;
    }
    writeln!(out, "  |   alone    once")?;
    for (left, name) in PRIMITIVES {
        write!(out, "{name:>8}")?;
        print_row(out, op, left as u32)?;
    }
    Ok(())
}

// The result of a left primitive with each right one, and what needs no right one.
fn print_row<W: Write>(out: &mut W, op: u32, left: u32) -> io::Result<()> {
    for (right, _) in PRIMITIVES {
        write!(
            out,
            "{:>8}",
            told(operators::resolve(op, left, right as u32))
        )?;
    }
    writeln!(
        out,
        "  |{:>8}{:>8}",
        told(operators::from_left(op, left)),
        told(operators::at_once(op))
    )
}

// An answer: a primitive's name, or that there is none.
fn told(answer: Result<Option<u32>, Refusal>) -> &'static str {
    match answer {
        Ok(Some(p)) => PRIMITIVES
            .iter()
            .find(|(primitive, _)| *primitive as u32 == p)
            .map_or("ANOTHER", |(_, name)| *name),
        Ok(None) => "-",
        Err(_) => "refused",
    }
}
