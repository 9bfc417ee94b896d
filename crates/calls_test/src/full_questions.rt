// Two small questions at every capacity from 0 to what they need, of one region while the others have room: bounds, visited, pending
// and equals. The work goes step by step, so that a step that is refused is held to the words before it. Then the same on an image
// started afresh, where the openings work too.
use crate::script::{Call, room, run};
use image::Capacities;
use operators::Primitive;
use std::alloc::Global;
use std::io;
use std::io::Write;

// The variable equal to Int, and lambda(Number, Int) under lambda(Int, Number): opened, worked step by step, given up.
const STEPS: [Call; 12] = [
    Call::OpenEqual(2, 0, 0),
    Call::Work(1),
    Call::Work(1),
    Call::Work(1),
    Call::Work(1),
    Call::Abandon,
    Call::Open(3, 4, 0),
    Call::Work(1),
    Call::Work(1),
    Call::Work(1),
    Call::Work(1),
    Call::Abandon,
];

// The same, where an opening may work as many steps as each question takes.
const WORKED: [Call; 6] = [
    Call::OpenEqual(2, 0, 3),
    Call::Work(1),
    Call::Abandon,
    Call::Open(3, 4, 3),
    Call::Work(1),
    Call::Abandon,
];

// Capacities of bounds, visited, pending and equals. The questions need 2 bounds, 4 visited pairs, 2 pending pairs and 1 pair asked
// equal. Where more than one region lacks room, they are told of the first, in order.
const LINES: [(u32, u32, u32, u32); 12] = [
    (0, 4, 2, 1),
    (1, 4, 2, 1),
    (2, 0, 2, 1),
    (2, 1, 2, 1),
    (2, 2, 2, 1),
    (2, 3, 2, 1),
    (2, 4, 0, 1),
    (2, 4, 1, 1),
    (2, 4, 2, 0),
    (2, 4, 2, 1),
    (0, 0, 2, 1),
    (2, 0, 1, 0),
];

// A line for the capacities of bounds, visited, pending and equals, five entries and no field: the answers of the script's calls.
// Its capacities, its start and its script are its own: one function for the three such would take a closure for each.
pub fn print_lines<W: Write>(out: &mut W, alloc: Global) -> io::Result<()> {
    writeln!(
        out,
        "Bounds, visited, pending, equals: what open equal by 0 steps, work by 1 step four times, abandon answer, the same of open;
afresh, what open equal by 3 steps, work by 1 step, abandon answer, the same of open;
uN where an opening is refused N, rN+S where a step of its first instalment is, after S steps"
    )?;
    for (bounds, visited, pending, equals) in LINES {
        let capacities = Capacities {
            entries: 5,
            fields: 0,
            bounds,
            visited,
            pending,
            equals,
        };
        write!(out, "{bounds} {visited} {pending} {equals}:")?;
        let mut image = room(alloc, capacities)?;
        start_afresh(&mut image, capacities);
        run(out, &mut image, &STEPS)?;
        write!(out, ";")?;
        start_afresh(&mut image, capacities);
        run(out, &mut image, &WORKED)?;
        writeln!(out)?;
    }
    Ok(())
}

// Starts the image, and makes its entries 0 Int, 1 Number, 2 a variable, 3 lambda(1, 0), 4 lambda(0, 1).
fn start_afresh(words: &mut [u32], capacities: Capacities) {
    let _ = sheafwinch::start(words, 0, 0, capacities);
    let _ = sheafwinch::make_primitive(words, Primitive::Int as u32);
    let _ = sheafwinch::make_primitive(words, Primitive::Number as u32);
    let _ = sheafwinch::make_variable(words);
    let _ = sheafwinch::make_lambda(words, 1, 0);
    let _ = sheafwinch::make_lambda(words, 0, 1);
}
