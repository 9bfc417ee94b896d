// The lower bounds of a variable, put again: one that is there adds nothing while there are at most 32, and is added where there are more.
use crate::left::count;
use image::Capacities;
use image::format::{BOUNDS, LOWER};
use operators::Primitive;
use std::io;
use std::io::Write;

// The variable, by its number.
const VARIABLE: u32 = 0;

// How many records each region takes.
const CAPACITIES: Capacities = Capacities {
    entries: 34,
    fields: 0,
    bounds: 34,
    visited: 0,
    pending: 0,
    equals: 0,
};

// How many bounds there are with bounds 1 to 32, and after each further one.
pub fn print_counts<W: Write>(out: &mut W) -> io::Result<()> {
    let mut words = [7u32; 367];
    make_entries(&mut words);
    for bound in 1..=32 {
        put_bound(&mut words, bound);
    }
    let bounds = count(&words, BOUNDS);
    write!(out, "Lower bounds 1 to 32 put: {bounds} bounds")?;
    for bound in [5, 33, 5] {
        put_bound(&mut words, bound);
        write!(out, "; then {bound}: {}", count(&words, BOUNDS))?;
    }
    writeln!(out)
}

// A variable, and 33 primitives.
fn make_entries(words: &mut [u32]) {
    let _ = sheafwinch::start(words, 3, 1, CAPACITIES);
    let _ = sheafwinch::make_variable(words);
    for _ in 0..33 {
        let _ = sheafwinch::make_primitive(words, Primitive::Null as u32);
    }
}

// Puts a lower bound.
fn put_bound(words: &mut [u32], bound: u32) {
    let _ = sheafwinch::put_bound(words, VARIABLE, LOWER, bound);
}
