// Whether every entry is right: a function for each of the model's tests of an entry, and the entries walked one by one.
ghost use Rattle.std.specs.Prelude.{◌≡◌, ◌+◌, ◌≤◌, ◌<◌, length, take, drop};
ghost use Rattle.model.specs.Lists.{all_from};
ghost use Rattle.model.specs.Format.{word_end};
ghost use Rattle.model.specs.Table.{entry_at};
ghost use Rattle.model.specs.Making.{spread_at, spread_of};
ghost use Rattle.model.specs.Formed.{one_component, two_components, has_dynamic_type, kind_known, primitive_known, components_below, unused_zero, flags_known, spread_right, negation_known, fields_right};
ghost use Rattle.image.specs.Laid.{Laid};
ghost use Rattle.image.specs.Shown.{store_of, entries_of, fields_in};
ghost use Rattle.formed.specs.Grouped.{entry_told, own_right, entry_right_in};

use crate::wide;
use image::{Entries, Fields};

// All flags of an attrset.
const ATTRSET_FLAGS: u32 = image::format::MARK_FLAG
    + image::format::OPEN_FLAG
    + image::format::DYNAMIC_FLAG;

// An entry's words.
#[derive(Clone, Copy)]
struct EntryWords {
    kind: u32,
    x: u32,
    y: u32,
    z: u32,
    flags: u32,
    spread: u32,
    negation: u32,
}

// Entry i's words, in their order.
fn entry_words(image: &[u32], i: u32) -> EntryWords
    requires laid { Laid image.now }
    requires i_in_bounds { i < length (entries_of image.now) }
    ensures { entry_told result ≡ entry_at (entries_of image.now) i }
{
    EntryWords {
        kind: image::word::<Entries>(image, i, image::format::KIND_WORD),
        x: image::word::<Entries>(image, i, image::format::X_WORD),
        y: image::word::<Entries>(image, i, image::format::Y_WORD),
        z: image::word::<Entries>(image, i, image::format::Z_WORD),
        flags: image::word::<Entries>(image, i, image::format::FLAGS_WORD),
        spread: image::word::<Entries>(image, i, image::format::SPREAD_WORD),
        negation: image::word::<Entries>(image, i, image::format::NEGATION_WORD),
    }
}

// Whether x is a component, and whether x and y are.
fn one_component(e: EntryWords) -> bool
    ensures { result ≡ one_component (entry_told e) }
{
    (e.kind == image::format::LIST)
        | (e.kind == image::format::NAMED)
        | (e.kind == image::format::NEG)
}

fn two_components(e: EntryWords) -> bool
    ensures { result ≡ two_components (entry_told e) }
{
    (e.kind == image::format::LAMBDA)
        | (e.kind == image::format::INTER)
        | (e.kind == image::format::UNION)
}

// Whether z is a component: an attrset's dynamic type.
fn has_dynamic_type(e: EntryWords) -> bool
    ensures { result ≡ has_dynamic_type (entry_told e) }
{
    (e.kind == image::format::ATTRSET) & image::says_dynamic(e.flags)
}

// Whether the kind is one of the nine.
fn kind_known(e: EntryWords) -> bool
    ensures { result ≡ kind_known (entry_told e) }
{
    e.kind <= image::format::UNION
}

// Whether a primitive is one of the eight.
fn primitive_known(e: EntryWords) -> bool
    ensures { result ≡ primitive_known (entry_told e) }
{
    !(e.kind == image::format::PRIMITIVE) | (e.x <= image::format::NUMBER)
}

// Whether every component is below its owner, entry i.
fn components_below(i: u32, e: EntryWords) -> bool
    ensures { result ≡ components_below i (entry_told e) }
{
    let two = two_components(e);
    (!(one_component(e) | two) | (e.x < i))
        & (!two | (e.y < i))
        & (!has_dynamic_type(e) | (e.z < i))
}

// Whether words with no use are 0.
fn unused_zero(e: EntryWords) -> bool
    ensures { result ≡ unused_zero (entry_told e) }
{
    (two_components(e)
        | (e.kind == image::format::NAMED)
        | (e.kind == image::format::ATTRSET)
        | (e.y == 0))
        & (has_dynamic_type(e) | (e.z == 0))
        & (!((e.kind == image::format::ATTRSET) & (e.y == 0)) | (e.x == 0))
}

// Whether no flag is set that the kind does not have.
fn flags_known(e: EntryWords) -> bool
    ensures { result ≡ flags_known (entry_told e) }
{
    if e.kind == image::format::ATTRSET {
        e.flags <= ATTRSET_FLAGS
    } else {
        e.flags <= image::format::MARK_FLAG
    }
}

// Entry n's spread; past the end, 0.
fn spread_at(image: &[u32], n: u32) -> usize
    requires { Laid image.now }
    ensures { (result ≡ spread_at (entries_of image.now) n) × (result < word_end) }
{
    if n < image[image::format::ENTRIES_COUNT_AT] {
        wide(image::word::<Entries>(image, n, image::format::SPREAD_WORD))
    } else {
        0
    }
}

// The spread that an entry with this kind, x and y has.
fn spread_of(image: &[u32], kind: u32, x: u32, y: u32) -> usize
    requires { Laid image.now }
    ensures { result ≡ spread_of (entries_of image.now) kind x y }
{
    if kind <= image::format::ATTRSET {
        1
    } else if kind <= image::format::NEG {
        1 + spread_at(image, x)
    } else {
        1 + spread_at(image, x) + spread_at(image, y)
    }
}

// Whether the spread is the one that its components give, and within its maximum.
fn spread_right(image: &[u32], e: EntryWords) -> bool
    requires { Laid image.now }
    ensures { result ≡ spread_right (entries_of image.now) (entry_told e) }
{
    (wide(e.spread) == spread_of(image, e.kind, e.x, e.y))
        & (e.spread <= image::format::SPREAD_MOST)
}

// Whether the negation is none, or the number of an entry plus 1.
fn negation_known(image: &[u32], e: EntryWords) -> bool
    requires { Laid image.now }
    ensures { result ≡ negation_known (entries_of image.now) (entry_told e) }
{
    e.negation <= image[image::format::ENTRIES_COUNT_AT]
}

// Whether so many field records from the first on have strictly ascending names below the name count, and entries below
// their owner, entry i. A name is at least `least`, one more than the name before.
fn own_right(image: &[u32], i: u32, first: u32, fields: u32) -> bool
    requires laid { Laid image.now }
    requires fields_in_bounds { first + fields ≤ length (fields_in image.now) }
    ensures { result ≡ own_right (store_of image.now).names i (take fields (drop first (fields_in image.now))) }
{
    let names = image[image::format::NAMES_AT];
    let mut ok = true;
    let mut least = 0;
    for k in 0..fields {
        let name = image::word::<Fields>(image, first + k, image::format::NAME_WORD);
        let entry = image::word::<Fields>(image, first + k, image::format::ENTRY_WORD);
        ok = ok & ((least <= wide(name)) & (name < names) & (entry < i));
        least = wide(name) + 1;
    }
    ok
}

// Whether the field records of an attrset, entry i, lie inside the field count and are right.
fn attrset_right(image: &[u32], i: u32, e: EntryWords) -> bool
    requires { Laid image.now }
    ensures { result ≡ fields_right (fields_in image.now) (store_of image.now).names i (entry_told e) }
{
    if e.kind != image::format::ATTRSET {
        return true;
    }
    if wide(image[image::format::FIELDS_COUNT_AT]) < wide(e.x) + wide(e.y) {
        return false;
    }
    own_right(image, i, e.x, e.y)
}

// Whether entry i is right: each of the model's tests, in its order.
fn entry_right(image: &[u32], i: u32) -> bool
    requires laid { Laid image.now }
    requires i_in_bounds { i < length (entries_of image.now) }
    ensures { result ≡ entry_right_in image.now i (entry_at (entries_of image.now) i) }
{
    let e = entry_words(image, i);
    kind_known(e)
        & primitive_known(e)
        & components_below(i, e)
        & unused_zero(e)
        & flags_known(e)
        & spread_right(image, e)
        & negation_known(image, e)
        & attrset_right(image, i, e)
}

// Whether every entry is right.
pub fn entries_right(image: &[u32]) -> bool
    requires { Laid image.now }
    ensures { result ≡ all_from (entry_right_in image.now) 0 (entries_of image.now) }
{
    let n = image[image::format::ENTRIES_COUNT_AT];
    let mut ok = true;
    for i in 0..n {
        ok = ok & entry_right(image, i);
    }
    ok
}
