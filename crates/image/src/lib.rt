// The image over lent words: the numbers of the format and its limits, and the reads, of the header and record by record.
// specs/Laid.antt says how words are laid out, specs/Shown.antt that they show a table: what changes an image (crates writes and start)
// says which table its words show.

#![tactic(auto)]

pub mod format;
pub mod regions;

ghost use Rattle.std.specs.Prelude.{◌≡◌, ◌+◌, ◌-◌, ◌*◌, ◌≤◌, ◌<◌, length, drop};
ghost use Rattle.model.specs.Format.{word_end, capacity_at, count_at};
ghost use Rattle.model.specs.Lists.{any, read_many};
ghost use Rattle.model.specs.Table.{◌⊑◌, entry_at, is_asked};
ghost use Rattle.model.specs.Image.{word, offset, capacity, count, table, visited_of};
ghost use Rattle.model.specs.Calls.{read_out};
ghost use Rattle.model.specs.Rules.{same_pair, is_visited};
ghost use Rattle.image.specs.Laid.{Laid};
ghost use Rattle.image.specs.Shown.{Shown, store_of, entries_of};
ghost use Rattle.image.specs.Records.{says_mark, says_open, says_dynamic, dynamic_read, attrset_read};

use model::{Attrset, Entry};
pub use regions::{Bounds, Entries, Equals, Fields, Pending, Region, Visited, records, room, word};

// How many records each region takes.
#[derive(Clone, Copy)]
pub struct Capacities {
    pub entries: u32,
    pub fields: u32,
    pub bounds: u32,
    pub visited: u32,
    pub pending: u32,
    pub equals: u32,
}

// A word is below this.
const WORD_END: u64 = 4294967296;

// A word as an index.
pub fn wide(x: u32) -> usize
    ensures { result ≡ x }
{
    x as usize
}

// How many records a region has, by its number, and how many it takes.
pub fn count(image: &[u32], region: usize) -> u32
    requires { count_at region < length image.now }
    ensures { result ≡ count image.now region }
{
    image[format::COUNT_AT + format::REGION_STEP * region]
}

pub fn capacity(image: &[u32], region: usize) -> u32
    requires { capacity_at region < length image.now }
    ensures { result ≡ capacity image.now region }
{
    image[format::CAPACITY_AT + format::REGION_STEP * region]
}

// The rest of the header: how many names there are, the functor word, the current level and the break.
pub fn name_count(image: &[u32]) -> u32
    requires { Laid image.now }
    ensures { result ≡ (store_of image.now).names }
{
    image[format::NAMES_AT]
}

pub fn functor(image: &[u32]) -> u32
    requires { Laid image.now }
    ensures { result ≡ (store_of image.now).functor }
{
    image[format::FUNCTOR_AT]
}

pub fn level(image: &[u32]) -> u32
    requires { Laid image.now }
    ensures { result ≡ (store_of image.now).level }
{
    image[format::LEVEL_AT]
}

pub fn break_kind(image: &[u32]) -> u32
    requires { Laid image.now }
    ensures { result ≡ (store_of image.now).broken.kind }
{
    image[format::BREAK_KIND_AT]
}

pub fn break_sub(image: &[u32]) -> u32
    requires { Laid image.now }
    ensures { result ≡ (store_of image.now).broken.sub }
{
    image[format::BREAK_SUB_AT]
}

pub fn break_sup(image: &[u32]) -> u32
    requires { Laid image.now }
    ensures { result ≡ (store_of image.now).broken.sup }
{
    image[format::BREAK_SUP_AT]
}

pub fn break_name(image: &[u32]) -> u32
    requires { Laid image.now }
    ensures { result ≡ (store_of image.now).broken.name }
{
    image[format::BREAK_NAME_AT]
}

// Whether these flags say marked, whether they say open, and whether they say that there is a dynamic type.
pub fn says_mark(flags: u32) -> bool
    ensures { result ≡ says_mark flags }
{
    flags / format::MARK_FLAG % 2 == 1
}

pub fn says_open(flags: u32) -> bool
    ensures { result ≡ says_open flags }
{
    flags / format::OPEN_FLAG % 2 == 1
}

pub fn says_dynamic(flags: u32) -> bool
    ensures { result ≡ says_dynamic flags }
{
    flags / format::DYNAMIC_FLAG % 2 == 1
}

// The dynamic type that the flags and z of an attrset tell.
fn dynamic(flags: u32, z: u32) -> Option<u32>
    ensures { result ≡ dynamic_read flags z }
{
    says_dynamic(flags).then_some(z)
}

// An attrset from its entry's words.
fn attrset(x: u32, y: u32, z: u32, flags: u32) -> Attrset
    ensures { result ≡ attrset_read x y z flags }
{
    Attrset {
        first: x,
        count: y,
        is_open: says_open(flags),
        dynamic: dynamic(flags, z),
    }
}

// Entry i, read out by value.
pub fn entry(image: &[u32], i: u32) -> Entry
    requires laid { Laid image.now }
    requires i_in_bounds { i < length (entries_of image.now) }
    ensures { result ≡ read_out (entry_at (entries_of image.now) i) }
{
    let kind = word::<Entries>(image, i, format::KIND_WORD);
    let x = word::<Entries>(image, i, format::X_WORD);
    let y = word::<Entries>(image, i, format::Y_WORD);
    let z = word::<Entries>(image, i, format::Z_WORD);
    let flags = word::<Entries>(image, i, format::FLAGS_WORD);
    match kind {
        0 => Entry::Variable { level: x },
        1 => Entry::Primitive(x),
        2 => Entry::List(x),
        3 => Entry::Lambda { param: x, body: y },
        4 => Entry::AttrSet(attrset(x, y, z, flags)),
        5 => Entry::Named { inner: x, label: y },
        6 => Entry::Neg(x),
        7 => Entry::Inter(x, y),
        _ => Entry::Union(x, y),
    }
}

// Whether a question is asked.
pub fn is_asked(image: &[u32]) -> bool
    requires { Shown image.now }
    ensures { result ≡ is_asked (table image.now) }
{
    image[format::STATE_AT] != format::IDLE
}

// Two words as one number.
fn join(low: u32, high: u32) -> u64
    ensures { result ≡ low + high * word_end }
{
    low as u64 + high as u64 * WORD_END
}

// Whether the pair (a, b) is among the first n visited ones, lent from their offset on.
fn has_pair(region: &[u32], n: usize, a: u32, b: u32) -> bool
    requires { 2 * n ≤ length region.now }
    ensures { result ≡ any (same_pair (a ⊑ b)) (read_many visited_of (drop 2) n region.now) }
{
    let key = join(a, b);
    for i in 0..n {
        if join(region[2 * i], region[2 * i + 1]) == key {
            return true;
        }
    }
    false
}

// Whether a pair was visited.
pub fn visited_has(image: &[u32], sub: u32, sup: u32) -> bool
    requires { Laid image.now }
    ensures { result ≡ is_visited (store_of image.now) (sub ⊑ sup) }
{
    let at = wide(image[format::VISITED_OFFSET_AT]);
    let n = wide(image[format::VISITED_COUNT_AT]);
    has_pair(&image[at..], n, sub, sup)
}
