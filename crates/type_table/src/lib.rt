// Making entries in an image: each concrete, and negation with its cache. A refusal leaves every word as found.

#![tactic(auto)]

ghost use Rattle.std.specs.Prelude.{◌≡◌, ◌+◌, ◌*◌, ◌≤◌, ◌<◌, ◌++◌, length, take, T};
ghost use Rattle.model.specs.Formed.{well_formed};
ghost use Rattle.model.specs.Image.{table};
ghost use Rattle.model.specs.Making.{spread_of, new_entry, make_neg, undone};
ghost use Rattle.model.specs.Format.{open_flag};
ghost use Rattle.model.specs.Calls.{field_list, dynamic_type, dynamic_bit};
ghost use Rattle.model.specs.Told.{bit, told_made};
ghost use Rattle.laws.specs.Good.{Shallow};
ghost use Rattle.image.specs.Laid.{Laid};
ghost use Rattle.image.specs.Shown.{Shows, Shown, store_of, entries_of, fields_in, entries_to, fields_to};
ghost use Rattle.type_table.specs.Made.{made_response, attrset_response, first_field, Components, Added, Negatable, NegatedIn};

use image::{Entries, Fields};
use model::Refusal;

// How far an entry of this kind, with these words, spreads.
fn spread_of(image: &[u32], kind: u32, x: u32, y: u32) -> u32
    requires laid { Laid image.now }
    requires components { Components (entries_of image.now) kind x y }
    requires shallow { Shallow (entries_of image.now) }
    ensures { result ≡ spread_of (entries_of image.now) kind x y }
{
    match kind {
        0..=4 => 1,
        5..=6 => 1 + image::word::<Entries>(image, x, image::format::SPREAD_WORD),
        _ => 1
            + image::word::<Entries>(image, x, image::format::SPREAD_WORD)
            + image::word::<Entries>(image, y, image::format::SPREAD_WORD),
    }
}

// Makes an entry that has no z and no flags: the Rust's `alloc_concrete`, and `new_var`.
pub fn make(image: &mut [u32], kind: u32, x: u32, y: u32) -> Result<u32, Refusal>
    requires t { T (well_formed image.old) }
    requires components { Components (entries_of image.old) kind x y }
    ensures result_value { told_made result ≡ (made_response image.old (new_entry (entries_of image.old) kind x y)).says }
    ensures image_after { image.new ≡ (made_response image.old (new_entry (entries_of image.old) kind x y)).words }
{
    let number = image::records::<Entries>(image);
    if image::room::<Entries>(image) <= number {
        return Err(Refusal::NoRoom(image::format::ENTRIES));
    }
    let spread = spread_of(image, kind, x, y);
    if image::format::SPREAD_MOST < spread {
        return Err(Refusal::TooDeep);
    }
    writes::push_entry(image, kind, x, y, 0, 0, spread);
    Ok(number)
}

// Puts an entry, cached as the negation of n, if there is room: its number.
fn add(image: &mut [u32], kind: u32, x: u32, y: u32, spread: u32, n: u32) -> Option<u32>
    requires shown { Shown image.old }
    requires n_in_bounds { n < length (entries_of image.old) }
    ensures { Added (table image.old) kind x y spread n result image.new }
{
    let number = image::records::<Entries>(image);
    if image::room::<Entries>(image) <= number {
        return None;
    }
    writes::push_entry(image, kind, x, y, 0, 0, spread);
    writes::put_negation(image, n, number + 1);
    Some(number)
}

// Takes off every entry from number old on.
fn pop_to(image: &mut [u32], old: u32)
    requires shown { Shown image.old }
    requires in_bounds { old ≤ length (entries_of image.old) }
    ensures { Shows image.new (entries_to image.old (take old (entries_of image.old))) }
{
    while old < image::records::<Entries>(image) {
        writes::pop::<Entries>(image);
    }
}

// Undoes what making did to an image that had old entries: a cached number that is none of these is taken back.
pub fn undo(image: &mut [u32], old: u32)
    requires shown { Shown image.old }
    requires in_bounds { old ≤ length (entries_of image.old) }
    ensures { Shows image.new (entries_to image.old (undone old (entries_of image.old))) }
{
    pop_to(image, old);
    for i in 0..old {
        if old < image::word::<Entries>(image, i, image::format::NEGATION_WORD) {
            writes::put_negation(image, i, 0);
        }
    }
}

// Makes Neg(n), entry by entry, as far as there is room: what the Rust's `alloc_concrete` does with a negation.
pub fn negate(image: &mut [u32], n: u32) -> Option<u32>
    requires { Negatable image.old n }
    ensures { NegatedIn (table image.old) n result image.new }
{
    let cached = image::word::<Entries>(image, n, image::format::NEGATION_WORD);
    if 0 < cached {
        return Some(cached - 1);
    }
    let kind = image::word::<Entries>(image, n, image::format::KIND_WORD);
    if kind < image::format::NEG {
        let spread = 1 + image::word::<Entries>(image, n, image::format::SPREAD_WORD);
        return add(image, image::format::NEG, n, 0, spread, n);
    }
    let x = image::word::<Entries>(image, n, image::format::X_WORD);
    if kind < image::format::INTER {
        return Some(x);
    }
    let y = image::word::<Entries>(image, n, image::format::Y_WORD);
    let p = negate(image, x)?;
    let q = negate(image, y)?;
    let spread = 1
        + image::word::<Entries>(image, p, image::format::SPREAD_WORD)
        + image::word::<Entries>(image, q, image::format::SPREAD_WORD);
    // the inter of negations for a union, and the other way round
    add(
        image,
        image::format::INTER + image::format::UNION - kind,
        p,
        q,
        spread,
        n,
    )
}

// Makes Neg(n), or leaves every word as found.
pub fn make_neg(image: &mut [u32], n: u32) -> Result<u32, Refusal>
    requires t { T (well_formed image.old) }
    requires n_in_bounds { n < length (entries_of image.old) }
    ensures result_value { told_made result ≡ (made_response image.old (make_neg (entries_of image.old) n)).says }
    ensures image_after { image.new ≡ (made_response image.old (make_neg (entries_of image.old) n)).words }
{
    let old = image::records::<Entries>(image);
    let Some(k) = negate(image, n) else {
        undo(image, old);
        return Err(Refusal::NoRoom(image::format::ENTRIES)); // however deep it would go
    };
    if image::format::SPREAD_MOST < image::word::<Entries>(image, k, image::format::SPREAD_WORD) {
        undo(image, old);
        return Err(Refusal::TooDeep);
    }
    Ok(k)
}

// Puts the n fields of a list behind the last.
fn put_fields(image: &mut [u32], fields: &[u32], n: usize)
    requires shown { Shown image.old }
    requires n_value { n ≡ length (field_list fields.now) }
    requires n_len_bound { length (fields_in image.old) + n ≤ (store_of image.old).capacities.fields }
    ensures { Shows image.new (fields_to image.old (fields_in image.old ++ field_list fields.now)) }
{
    for i in 0..n {
        let at = image::format::FIELD_WIDTH * i;
        writes::push::<Fields>(image, &[fields[at], fields[at + 1], fields[at + 2]]);
    }
}

// The first field record of an attrset with so many fields, put behind the old ones: 0 if it has none.
fn first_field(old: u32, count: u32) -> u32
    ensures { result ≡ first_field old count }
{
    if count == 0 { 0 } else { old }
}

// The dynamic type, or 0.
fn dynamic_type(dynamic: Option<u32>) -> u32
    ensures { result ≡ dynamic_type dynamic }
{
    match dynamic {
        None => 0,
        Some(n) => n,
    }
}

// The flag that says that there is one.
fn dynamic_bit(dynamic: Option<u32>) -> u32
    ensures { (result ≡ dynamic_bit dynamic) × (result ≤ 4) }
{
    match dynamic {
        None => 0,
        Some(_) => image::format::DYNAMIC_FLAG,
    }
}

// The flag that says open.
fn open_bit(is_open: bool) -> u32
    ensures { (result ≡ open_flag * bit is_open) × (result ≤ 2) }
{
    if is_open { image::format::OPEN_FLAG } else { 0 }
}

// A word as an index.
fn wide(x: u32) -> usize
    ensures { result ≡ x }
{
    x as usize
}

// Makes an attrset with the fields of a list, triples of a name, an entry and optional.
pub fn make_attrset(
    image: &mut [u32],
    fields: &[u32],
    is_open: bool,
    dynamic: Option<u32>,
) -> Result<u32, Refusal>
    requires { T (well_formed image.old) }
    ensures result_value { told_made result ≡ (attrset_response image.old fields.now is_open dynamic).says }
    ensures image_after { image.new ≡ (attrset_response image.old fields.now is_open dynamic).words }
{
    let number = image::records::<Entries>(image);
    if image::room::<Entries>(image) <= number {
        return Err(Refusal::NoRoom(image::format::ENTRIES));
    }
    let old = image::records::<Fields>(image);
    let room = image::room::<Fields>(image) - old;
    let n = fields.len() / image::format::FIELD_WIDTH;
    if wide(room) < n {
        return Err(Refusal::NoRoom(image::format::FIELDS));
    }
    put_fields(image, fields, n);
    let count = n as u32;
    let first = first_field(old, count);
    let typed = dynamic_type(dynamic);
    let flags = open_bit(is_open) + dynamic_bit(dynamic);
    writes::push_entry(image, image::format::ATTRSET, first, count, typed, flags, 1);
    Ok(number)
}
