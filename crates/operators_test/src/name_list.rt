// Name lists, printed: what each name call answers on a list, and on one that is malformed.
use model::Refusal;
use refusals::number;
use std::fmt::Display;
use std::io::Write;
use std::{fmt, io};

// What a name call answers, or the number of its refusal.
#[derive(Drop)]
struct Told<T>(Result<T, Refusal>);

impl<T: Display> Display for Told<T> {
    fn fmt<W: fmt::Write>(&self, f: &mut fmt::Formatter<W>) -> fmt::Result {
        match &self.0 {
            Ok(answer) => write!(f, "{answer}"),
            Err(r) => write!(f, "refused {}", number(*r)),
        }
    }
}

// The count, the offsets and the bytes of a list, under a title. In the second the third offset is below the second.
const LISTS: [(&str, &[u8; 21]); 2] = [
    (
        "The names __functor, x, y, at the offsets 0, 9, 10, 11.",
        b"\x03\0\0\0\x09\0\x0A\0\x0B\0__functorxy",
    ),
    (
        "The same at the offsets 0, 9, 8, 11, of which one falls.",
        b"\x03\0\0\0\x09\0\x08\0\x0B\0__functorxy",
    ),
];

// A right list, and a malformed one.
pub fn print_lists<W: Write>(out: &mut W) -> io::Result<()> {
    for (title, list) in LISTS {
        writeln!(out, "\n{title}")?;
        print_calls(out, list)?;
    }
    Ok(())
}

// What each name call answers: there are names 0 to 2, none has the number 3, and none is `z`.
fn print_calls<W: Write>(out: &mut W, list: &[u8]) -> io::Result<()> {
    writeln!(out, "check: {}", Told(names::check(list).map(|()| "done")))?;
    writeln!(out, "count: {}", Told(names::count(list)))?;
    for n in 0..=3 {
        print_name(out, list, n)?;
    }
    for (i, j) in [(0, 1), (1, 1), (2, 1)] {
        let order = names::compare(list, i, j).map(|order| order as i32);
        writeln!(out, "compare {i} and {j}: {}", Told(order))?;
    }
    for name in ["x", "z"] {
        print_search(out, list, name)?;
    }
    Ok(())
}

// The part of the list that holds name n, in quotes; where it is refused, the empty part, and why.
fn print_name<W: Write>(out: &mut W, list: &[u8], n: u32) -> io::Result<()> {
    write!(out, "name {n}: \"")?;
    out.write_all(names::show(list, n))?;
    match names::check_name(list, n) {
        Ok(()) => writeln!(out, "\""),
        Err(r) => writeln!(out, "\", refused {}", number(r)),
    }
}

// The number of the name that has these bytes.
fn print_search<W: Write>(out: &mut W, list: &[u8], name: &str) -> io::Result<()> {
    write!(out, "find {name}: ")?;
    match names::find(list, name.as_bytes()) {
        Ok(Some(n)) => writeln!(out, "{n}"),
        Ok(None) => writeln!(out, "absent"),
        Err(r) => writeln!(out, "refused {}", number(r)),
    }
}
