// A small script of calls at every capacity from 0 to what it needs: of one region while the others have room, then of several.
// Visited, pending and equals are filled by questions: full_questions.rt.
use crate::script::{Call, room, run};
use image::Capacities;
use image::format::{LOWER, UPPER};
use operators::Primitive;
use std::alloc::Global;
use std::io;
use std::io::Write;

// With room for all of them the makes answer 0 to 3, 6, 6, 7 and 8: the first negation is the union of two more. The attrsets are one
// of fields x and y, and one of field `__functor` and a dynamic type. Then bounds of the variable, the first put twice, and two calls
// that need no room.
const CALLS: [Call; 14] = [
    Call::Variable,
    Call::Primitive(Primitive::Int),
    Call::Primitive(Primitive::String),
    Call::Inter(1, 2),
    Call::Neg(3),
    Call::Neg(3),
    Call::Attrset {
        fields: &[1, 1, 0, 2, 2, 1],
        is_open: false,
        dynamic: None,
    },
    Call::Attrset {
        fields: &[0, 0, 0],
        is_open: true,
        dynamic: Some(0),
    },
    Call::PutBound(0, LOWER, 0),
    Call::PutBound(0, LOWER, 0),
    Call::PutBound(0, UPPER, 1),
    Call::PutBound(0, LOWER, 1),
    Call::Mark(0),
    Call::Enter,
];

// Capacities of entries, fields and bounds. The script needs 9 entries, 3 fields and 3 bounds. Where more than one region lacks room,
// an attrset is told of entries first, and of fields where it has an entry.
const LINES: [(u32, u32, u32); 19] = [
    (0, 3, 3),
    (1, 3, 3),
    (2, 3, 3),
    (3, 3, 3),
    (4, 3, 3),
    (5, 3, 3),
    (6, 3, 3),
    (7, 3, 3),
    (8, 3, 3),
    (9, 3, 3),
    (9, 0, 3),
    (9, 1, 3),
    (9, 2, 3),
    (9, 3, 0),
    (9, 3, 1),
    (9, 3, 2),
    (4, 1, 0),
    (5, 1, 0),
    (8, 2, 1),
];

// A line for the capacities of entries, fields and bounds, two records of each other region: the answers of the script's calls.
// Its capacities, its start and its script are its own: one function for the three such would take a closure for each.
pub fn print_lines<W: Write>(out: &mut W, alloc: Global) -> io::Result<()> {
    writeln!(
        out,
        "Entries, fields, bounds: what each call answers, rN where it is refused N, r5(R) where region R is full"
    )?;
    for (entries, fields, bounds) in LINES {
        let capacities = Capacities {
            entries,
            fields,
            bounds,
            visited: 2,
            pending: 2,
            equals: 2,
        };
        write!(out, "{entries} {fields} {bounds}:")?;
        let mut image = room(alloc, capacities)?;
        let _ = sheafwinch::start(&mut image, 3, 1, capacities);
        run(out, &mut image, &CALLS)?;
        writeln!(out)?;
    }
    Ok(())
}
