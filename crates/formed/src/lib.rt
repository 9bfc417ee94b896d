// Whether lent words are a well formed image: a function for each condition of document 01, named as the model's test that it
// decides, and `check`, which is all of them; `admit` says which refusal an unfit image gets. An image is nearly always well formed:
// a test of many words does not stop early, and so vectorises. The bounds do stop: their variables are looked up one by one, and
// there branches never taken cost least.

#![tactic(auto)]

mod entries;

ghost use Rattle.std.specs.Prelude.{◌≡◌, cond, ◌&&◌, ◌≤◌, ◌<◌, length, eqb, leb, ltb};
ghost use Rattle.model.specs.Lists.{is_zero, all};
ghost use Rattle.model.specs.Format.{regions, rows, newest, word_end, header_words, idle, variable};
ghost use Rattle.model.specs.Table.{is_at};
ghost use Rattle.model.specs.Parts.{offset, capacity, count, regions_right, rest_zero, rests_zero};
ghost use Rattle.model.specs.Image.{records_of, table};
ghost use Rattle.model.specs.Formed.{is_entry, pair_right, break_right, field_right, bound_right, records_right, well_formed};
ghost use Rattle.model.specs.Calls.{admission};
ghost use Rattle.image.specs.Laid.{Laid};
ghost use Rattle.image.specs.Shown.{store_of, entries_of, fields_in, bounds_all};
ghost use Rattle.image.specs.Records.{field_at, bound_at};
ghost use Rattle.formed.specs.Grouped.{header_right, RegionInside, pair_of};

use image::{Bounds, Entries, Fields};
use model::Refusal;

// A word as a length.
fn wide(x: u32) -> usize
    ensures { (result ≡ x) × (result < word_end) }
{
    x as usize
}

// Whether all words of a part are 0.
fn zeros(part: &[u32]) -> bool
    ensures { result ≡ all is_zero part.now }
{
    let mut ok = true;
    for w in part {
        ok = ok & (*w == 0);
    }
    ok
}

// Whether all words of a part are below a limit.
fn below(part: &[u32], limit: u32) -> bool
    ensures { result ≡ all (λ w. ltb w limit) part.now }
{
    let mut ok = true;
    for w in part {
        ok = ok & (*w < limit);
    }
    ok
}

// Region k's offset, capacity and count.
fn offset(image: &[u32], k: usize) -> usize
    requires { (header_words ≤ length image.now) × (k ≤ length (regions newest)) }
    ensures { (result ≡ offset image.now k) × (result < word_end) }
{
    wide(image[image::format::OFFSET_AT + image::format::REGION_STEP * k])
}

fn capacity(image: &[u32], k: usize) -> usize
    requires { (header_words ≤ length image.now) × (k ≤ length (regions newest)) }
    ensures { (result ≡ capacity image.now k) × (result < word_end) }
{
    wide(image[image::format::CAPACITY_AT + image::format::REGION_STEP * k])
}

fn count(image: &[u32], k: usize) -> usize
    requires { (header_words ≤ length image.now) × (k ≤ length (regions newest)) }
    ensures { (result ≡ count image.now k) × (result < word_end) }
{
    wide(image[image::format::COUNT_AT + image::format::REGION_STEP * k])
}

// Whether pending pairs are there exactly when asked.
fn pending_when_asked(state: u32, pending: u32) -> bool
    ensures { result ≡ cond (eqb state idle) (is_zero pending) (leb 1 pending) }
{
    if state == image::format::IDLE {
        pending == 0
    } else {
        1 <= pending
    }
}

// Whether the header is whole, and its first words are right: format, state, name count, `__functor`.
fn header_right(image: &[u32]) -> bool
    ensures { result ≡ header_right image.now }
{
    if image.len() < image::format::HEADER_WORDS {
        return false;
    }
    (image[image::format::FORMAT_AT] == image::format::FORMAT)
        & (image[image::format::STATE_AT] <= image::format::ASKED)
        & pending_when_asked(
            image[image::format::STATE_AT],
            image[image::format::PENDING_COUNT_AT],
        )
        & (image[image::format::NAMES_AT] <= image::format::NAMES_MOST)
        & (image[image::format::FUNCTOR_AT] <= image[image::format::NAMES_AT])
}

// Whether the regions follow the header without gaps and end at the slice's end, and no count passes its capacity.
fn regions_right(image: &[u32]) -> bool
    requires { header_words ≤ length image.now }
    ensures { result ≡ regions_right (regions newest) 1 header_words image.now }
{
    let mut at: usize = image::format::HEADER_WORDS;
    for k in 0..image::format::REGIONS {
        let room = capacity(image, k + 1);
        if offset(image, k + 1) != at {
            return false;
        }
        if wide(image::format::MOSTS[k]) < room {
            return false;
        }
        if room < count(image, k + 1) {
            return false;
        }
        at = at + image::format::WIDTHS[k] * room;
    }
    at == image.len()
}

// Whether all words of region k past its count are 0.
fn rest_zero(image: &[u32], k: usize, width: usize) -> bool
    requires { RegionInside image.now k width }
    ensures { result ≡ rest_zero image.now k width }
{
    let at = offset(image, k);
    let start = at + width * count(image, k);
    let end = at + width * capacity(image, k);
    zeros(&image[start..end])
}

// Whether all words past a count are 0.
fn rests_zero(image: &[u32]) -> bool
    requires { Laid image.now }
    ensures { result ≡ rests_zero (rows newest) 1 image.now }
{
    let mut ok = true;
    for k in 0..image::format::ROWS {
        ok = ok & rest_zero(image, k + 1, image::format::WIDTHS[k]);
    }
    ok
}

// Whether the break words say no more than their kind has: nothing, a pair, or a pair and a name.
fn break_right(image: &[u32]) -> bool
    requires { Laid image.now }
    ensures { result ≡ break_right (store_of image.now) }
{
    let kind = image[image::format::BREAK_KIND_AT];
    let sub = image[image::format::BREAK_SUB_AT];
    let sup = image[image::format::BREAK_SUP_AT];
    let name = image[image::format::BREAK_NAME_AT];
    let entries = image[image::format::ENTRIES_COUNT_AT];
    if kind == image::format::UNBROKEN {
        (sub == 0) & (sup == 0) & (name == 0)
    } else if kind == image::format::MISMATCHED {
        (sub < entries) & (sup < entries) & (name == 0)
    } else {
        (sub < entries)
            & (sup < entries)
            & ((kind == image::format::FIELD_MISSING) & (name < image[image::format::NAMES_AT]))
    }
}

// Whether field record i, owned or not, has the number of an entry, and is optional or not.
fn field_right(image: &[u32], i: u32) -> bool
    requires laid { Laid image.now }
    requires i_in_bounds { i < length (fields_in image.now) }
    ensures { result ≡ field_right (entries_of image.now) (field_at (fields_in image.now) i) }
{
    (image::word::<Fields>(image, i, image::format::ENTRY_WORD)
        < image[image::format::ENTRIES_COUNT_AT])
        & (image::word::<Fields>(image, i, image::format::OPTIONAL_WORD) <= image::format::OPTIONAL)
}

// Whether every field record is right.
fn fields_right(image: &[u32]) -> bool
    requires { Laid image.now }
    ensures { result ≡ all (field_right (entries_of image.now)) (fields_in image.now) }
{
    let n = image[image::format::FIELDS_COUNT_AT];
    let mut ok = true;
    for i in 0..n {
        ok = ok & field_right(image, i);
    }
    ok
}

// Whether entry v is there, and is a variable.
fn is_variable(image: &[u32], v: u32) -> bool
    requires { Laid image.now }
    ensures { result ≡ (is_entry (entries_of image.now) v && is_at (entries_of image.now) variable v) }
{
    if v < image[image::format::ENTRIES_COUNT_AT] {
        image::word::<Entries>(image, v, image::format::KIND_WORD) == image::format::VARIABLE
    } else {
        false
    }
}

// Whether bound record i belongs to a variable, on one of the two sides, and has the number of an entry.
fn bound_right(image: &[u32], i: u32) -> bool
    requires laid { Laid image.now }
    requires i_in_bounds { i < length (bounds_all image.now) }
    ensures { result ≡ bound_right (entries_of image.now) (bound_at (bounds_all image.now) i) }
{
    if !is_variable(
        image,
        image::word::<Bounds>(image, i, image::format::VARIABLE_WORD),
    ) {
        return false;
    }
    if image::format::UPPER < image::word::<Bounds>(image, i, image::format::SIDE_WORD) {
        return false;
    }
    image::word::<Bounds>(image, i, image::format::BOUND_WORD)
        < image[image::format::ENTRIES_COUNT_AT]
}

// Whether every bound record is right.
fn bounds_right(image: &[u32]) -> bool
    requires { Laid image.now }
    ensures { result ≡ all (bound_right (entries_of image.now)) (bounds_all image.now) }
{
    let n = image[image::format::BOUNDS_COUNT_AT];
    for i in 0..n {
        if !bound_right(image, i) {
            return false;
        }
    }
    true
}

// Whether every number in the pairs of region k, visited, pending or equals, is below the entry count.
fn pairs_right(image: &[u32], k: usize) -> bool
    requires { RegionInside image.now k 2 }
    ensures { result ≡ all (pair_right (entries_of image.now)) (records_of pair_of 2 image.now k) }
{
    let start = offset(image, k);
    let end = start + 2 * count(image, k);
    below(&image[start..end], image[image::format::ENTRIES_COUNT_AT])
}

// Whether every record is right.
fn records_right(image: &[u32]) -> bool
    requires { Laid image.now }
    ensures { result ≡ records_right (table image.now) }
{
    break_right(image)
        & entries::entries_right(image)
        & fields_right(image)
        & bounds_right(image)
        & pairs_right(image, image::format::IN_VISITED)
        & pairs_right(image, image::format::IN_PENDING)
        & pairs_right(image, image::format::IN_EQUALS)
}

// Whether the words are a well formed image.
pub fn check(image: &[u32]) -> bool
    ensures { result ≡ well_formed image.now }
{
    if !header_right(image) {
        return false;
    }
    if !regions_right(image) {
        return false;
    }
    rests_zero(image) & records_right(image)
}

// Whether an image is fit for a call: good, or which refusal.
pub fn admit(image: &[u32]) -> Result<(), Refusal>
    ensures { result ≡ admission image.now }
{
    if check(image) {
        Ok(())
    } else {
        Err(Refusal::BadTable)
    }
}
