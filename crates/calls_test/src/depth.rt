// Unions of the last entry with itself, spread 1, 3, 7 to 1,023. Then what would pass 1,024 is refused 6; where entries lack too,
// 5 comes first.
use crate::script::{Call, room, run};
use image::Capacities;
use std::alloc::Global;
use std::io;
use std::io::Write;

// The last of the unions, of spread 1,023, and the named entry after it, of 1,024.
const LAST_UNION: u32 = 9;

const NAMED: u32 = 10;

// A union of spread 2,047, a negation of 1,535, named entries of 1,024 and 1,025, a negation of 1,025.
const CALLS: [Call; 5] = [
    Call::Union(LAST_UNION, LAST_UNION),
    Call::Neg(LAST_UNION),
    Call::Named(LAST_UNION, 0),
    Call::Named(NAMED, 0),
    Call::Neg(NAMED),
];

// A line for each capacity where an answer turns. A union needs 1 entry; the negation needs 10, for the unions and the variable.
// Its capacities, its start and its script are its own: one function for the three such would take a closure for each.
pub fn print_lines<W: Write>(out: &mut W, alloc: Global) -> io::Result<()> {
    writeln!(
        out,
        "Entries, 10 of them to spread 1023: what each call answers"
    )?;
    for entries in [10, 11, 12, 19, 20] {
        let capacities = Capacities {
            entries,
            fields: 0,
            bounds: 0,
            visited: 0,
            pending: 0,
            equals: 0,
        };
        write!(out, "{entries}:")?;
        let mut image = room(alloc, capacities)?;
        let _ = sheafwinch::start(&mut image, 0, 0, capacities);
        make_unions(&mut image);
        run(out, &mut image, &CALLS)?;
        writeln!(out)?;
    }
    Ok(())
}

// A variable, and the unions.
fn make_unions(words: &mut [u32]) {
    let _ = sheafwinch::make_variable(words);
    for n in 0..LAST_UNION {
        let _ = sheafwinch::make_union(words, n, n);
    }
}
