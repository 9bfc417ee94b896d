// The bench table of document 01, made by the calls.

#![tactic(auto)]

ghost use Rattle.std.specs.Prelude.{◌≡◌, length};

use operators::Primitive;

// Its names `__functor`, `x`, `y`: their count, the offsets, and the bytes.
pub const NAMES: [u8; 21] = *b"\x03\0\0\0\x09\0\x0A\0\x0B\0__functorxy";

// How many entries the image takes, where nothing else is said.
const ENTRIES: u32 = 24;

// Entries 0 to 3.
const PRIMITIVES: [Primitive; 4] = [
    Primitive::Int,
    Primitive::Number,
    Primitive::Float,
    Primitive::String,
];

// The fields of entries 8 closed {x: 0}, 9 closed {x: 1}, 10 closed {x: 0, y: 3}: name, entry, and 1 where it is optional.
const CLOSED: [&[u32]; 3] = [&[1, 0, 0], &[1, 1, 0], &[1, 0, 0, 2, 3, 0]];

// The words of the image, before it is started.
pub fn room() -> [u32; 283]
    ensures { 283 ≡ length result }
{
    [7u32; 283]
}

// The table, from nothing.
pub fn make_table(words: &mut [u32]) {
    make_with(words, ENTRIES);
}

// The table in an image that takes so many entries, 7 words for each of them. A call that is refused adds nothing.
pub fn make_with(words: &mut [u32], entries: u32) {
    let _ = sheafwinch::start(words, 3, 1, capacities(entries));
    for primitive in PRIMITIVES {
        let _ = sheafwinch::make_primitive(words, primitive as u32);
    }
    // Entries 4 and 5 variables, 6 union(1, 0), 7 neg 0.
    let _ = sheafwinch::make_variable(words);
    let _ = sheafwinch::make_variable(words);
    let _ = sheafwinch::make_union(words, 1, 0);
    let _ = sheafwinch::make_neg(words, 0);
    for fields in CLOSED {
        make_attrset(words, fields, false);
    }
    // Entries 11 lambda(0, 3), 12 open {}, 13 closed {__functor: 4}, 14 inter(4, 3).
    let _ = sheafwinch::make_lambda(words, 0, 3);
    make_attrset(words, &[], true);
    make_attrset(words, &[0, 4, 0], false);
    let _ = sheafwinch::make_inter(words, 4, 3);
}

// How many records each region takes.
fn capacities(entries: u32) -> image::Capacities {
    image::Capacities {
        entries,
        fields: 8,
        bounds: 8,
        visited: 8,
        pending: 8,
        equals: 4,
    }
}

// An attrset with no dynamic type.
fn make_attrset(words: &mut [u32], fields: &[u32], is_open: bool) {
    let _ = sheafwinch::make_attrset(words, fields, is_open, None);
}
