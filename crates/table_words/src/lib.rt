// The words of a table, for the programs: its header and its records, read as they stand, since the table is the program's own and every
// call leaves it well formed; and how many words a table has.

#![tactic(auto)]

mod records;

ghost use Rattle.std.specs.Prelude.{◌≡◌, ◌≤◌, length, slice_index_or};
ghost use Rattle.table_words.specs.Records.{size_of};

use image::Capacities;
use model::Failure;
pub use records::{Bound, Entry, Equal, Field, Records, Stored, Visited, each};

// A word, or 0 past the last.
fn word(words: &[u32], at: usize) -> u32
    ensures { result ≡ slice_index_or words.now at 0 }
{
    words.get(at).copied().unwrap_or(0)
}

// A table's header; the failure that it keeps, if it keeps one.
#[derive(Clone, Copy)]
pub struct Header {
    pub is_asked: bool,
    pub broken: Option<Failure>,
    pub level: u32,
    pub names: u32,
    pub functor: u32,
    pub counts: Capacities,
    pub capacities: Capacities,
}

impl From<&[u32]> for Header {
    fn from(words: &[u32]) -> Header {
        Header {
            is_asked: word(words, image::format::STATE_AT) == image::format::ASKED,
            broken: broken(words),
            level: word(words, image::format::LEVEL_AT),
            names: word(words, image::format::NAMES_AT),
            functor: word(words, image::format::FUNCTOR_AT),
            counts: Capacities {
                entries: word(words, image::format::ENTRIES_COUNT_AT),
                fields: word(words, image::format::FIELDS_COUNT_AT),
                bounds: word(words, image::format::BOUNDS_COUNT_AT),
                visited: word(words, image::format::VISITED_COUNT_AT),
                pending: word(words, image::format::PENDING_COUNT_AT),
                equals: word(words, image::format::EQUALS_COUNT_AT),
            },
            capacities: Capacities {
                entries: word(words, image::format::ENTRIES_CAPACITY_AT),
                fields: word(words, image::format::FIELDS_CAPACITY_AT),
                bounds: word(words, image::format::BOUNDS_CAPACITY_AT),
                visited: word(words, image::format::VISITED_CAPACITY_AT),
                pending: word(words, image::format::PENDING_CAPACITY_AT),
                equals: word(words, image::format::EQUALS_CAPACITY_AT),
            },
        }
    }
}

// The failure that the break words keep.
fn broken(words: &[u32]) -> Option<Failure> {
    let sub = word(words, image::format::BREAK_SUB_AT);
    let sup = word(words, image::format::BREAK_SUP_AT);
    match word(words, image::format::BREAK_KIND_AT) {
        image::format::UNBROKEN => None,
        image::format::FIELD_MISSING => Some(Failure::MissingField {
            sub,
            sup,
            name: word(words, image::format::BREAK_NAME_AT),
        }),
        _ => Some(Failure::Mismatch { sub, sup }),
    }
}

// The largest capacities.
pub fn largest() -> Capacities {
    Capacities {
        entries: image::format::ENTRIES_MOST,
        fields: image::format::FIELDS_MOST,
        bounds: image::format::BOUNDS_MOST,
        visited: image::format::VISITED_MOST,
        pending: image::format::PENDING_MOST,
        equals: image::format::EQUALS_MOST,
    }
}

// Whether no capacity is over its maximum.
pub fn is_small(c: Capacities) -> bool {
    (c.entries <= image::format::ENTRIES_MOST)
        & (c.fields <= image::format::FIELDS_MOST)
        & (c.bounds <= image::format::BOUNDS_MOST)
        & (c.visited <= image::format::VISITED_MOST)
        & (c.pending <= image::format::PENDING_MOST)
        & (c.equals <= image::format::EQUALS_MOST)
}

// How many words a table of these capacities has.
pub fn size_of(c: Capacities) -> usize
    ensures { result ≡ size_of c }
{
    image::format::HEADER_WORDS
        + image::format::ENTRY_WIDTH * c.entries as usize
        + image::format::FIELD_WIDTH * c.fields as usize
        + image::format::BOUND_WIDTH * c.bounds as usize
        + image::format::VISITED_WIDTH * c.visited as usize
        + image::format::PENDING_WIDTH * c.pending as usize
        + image::format::EQUALS_WIDTH * c.equals as usize
}
