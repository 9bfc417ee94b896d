// The records of a table's regions, each with its words by name.
ghost use Rattle.std.specs.Prelude.{◌≡◌, ℕ, ◌-◌, ◌≤◌, List, slice_index_or};
ghost use Rattle.table_words.specs.Records.{record_word};
ghost use Rattle.std.specs.Iterator.{at_most};

use crate::word;
use model::Attrset;
use std::marker::PhantomData;

// A kind of record: where the header counts it, and how one is read, each word 0 where the table has none.
pub trait Stored: Sized {
    ghost COUNT_AT: { ℕ };

    ghost stored: { List ℕ → ℕ → Self };

    const COUNT_AT: usize;

    fn read(words: &[u32], n: u32) -> Self
        ensures { result ≡ stored words.now n };
}

// A word of record n of a region.
fn record_word(words: &[u32], offset_at: usize, width: usize, n: u32, which: usize) -> u32
    requires width { width ≤ 7 }
    requires which { which ≤ 6 }
    ensures { result ≡ record_word words.now offset_at width n which }
{
    let start = word(words, offset_at) as usize;
    word(words, start + width * n as usize + which)
}

// An entry.
#[derive(Clone, Copy)]
pub struct Entry {
    pub kind: u32,
    pub x: u32,
    pub y: u32,
    pub z: u32,
    pub flags: u32,
    pub spread: u32,
    pub negation: u32,
}

impl Stored for Entry {
    ghost COUNT_AT = { 11 };

    ghost stored = { λ words n. record { kind = record_word words 9 7 n 0; x = record_word words 9 7 n 1; y = record_word words 9 7 n 2; z = record_word words 9 7 n 3; flags = record_word words 9 7 n 4; spread = record_word words 9 7 n 5; negation = record_word words 9 7 n 6 } };

    const COUNT_AT: usize = image::format::ENTRIES_COUNT_AT;

    fn read(words: &[u32], n: u32) -> Entry {
        let word = |which: usize| {
            record_word(
                words,
                image::format::ENTRIES_OFFSET_AT,
                image::format::ENTRY_WIDTH,
                n,
                which,
            )
        };
        Entry {
            kind: word(image::format::KIND_WORD),
            x: word(image::format::X_WORD),
            y: word(image::format::Y_WORD),
            z: word(image::format::Z_WORD),
            flags: word(image::format::FLAGS_WORD),
            spread: word(image::format::SPREAD_WORD),
            negation: word(image::format::NEGATION_WORD),
        }
    }
}

// What the words of an entry say, by its kind; the last kind is a union's.
impl From<Entry> for model::Entry {
    fn from(e: Entry) -> model::Entry {
        match e.kind {
            image::format::VARIABLE => model::Entry::Variable { level: e.x },
            image::format::PRIMITIVE => model::Entry::Primitive(e.x),
            image::format::LIST => model::Entry::List(e.x),
            image::format::LAMBDA => model::Entry::Lambda {
                param: e.x,
                body: e.y,
            },
            image::format::ATTRSET => model::Entry::AttrSet(Attrset {
                first: e.x,
                count: e.y,
                is_open: image::says_open(e.flags),
                dynamic: image::says_dynamic(e.flags).then_some(e.z),
            }),
            image::format::NAMED => model::Entry::Named {
                inner: e.x,
                label: e.y,
            },
            image::format::NEG => model::Entry::Neg(e.x),
            image::format::INTER => model::Entry::Inter(e.x, e.y),
            _ => model::Entry::Union(e.x, e.y),
        }
    }
}

// A field of an attrset.
#[derive(Clone, Copy)]
pub struct Field {
    pub name: u32,
    pub entry: u32,
    pub optional: u32,
}

impl Stored for Field {
    ghost COUNT_AT = { 14 };

    ghost stored = { λ words n. record { name = record_word words 12 3 n 0; entry = record_word words 12 3 n 1; optional = record_word words 12 3 n 2 } };

    const COUNT_AT: usize = image::format::FIELDS_COUNT_AT;

    fn read(words: &[u32], n: u32) -> Field {
        let word = |which: usize| {
            record_word(
                words,
                image::format::FIELDS_OFFSET_AT,
                image::format::FIELD_WIDTH,
                n,
                which,
            )
        };
        Field {
            name: word(image::format::NAME_WORD),
            entry: word(image::format::ENTRY_WORD),
            optional: word(image::format::OPTIONAL_WORD),
        }
    }
}

// A bound of a variable.
#[derive(Clone, Copy)]
pub struct Bound {
    pub variable: u32,
    pub side: u32,
    pub bound: u32,
}

impl Stored for Bound {
    ghost COUNT_AT = { 17 };

    ghost stored = { λ words n. record { variable = record_word words 15 3 n 0; side = record_word words 15 3 n 1; bound = record_word words 15 3 n 2 } };

    const COUNT_AT: usize = image::format::BOUNDS_COUNT_AT;

    fn read(words: &[u32], n: u32) -> Bound {
        let word = |which: usize| {
            record_word(
                words,
                image::format::BOUNDS_OFFSET_AT,
                image::format::BOUND_WIDTH,
                n,
                which,
            )
        };
        Bound {
            variable: word(image::format::VARIABLE_WORD),
            side: word(image::format::SIDE_WORD),
            bound: word(image::format::BOUND_WORD),
        }
    }
}

// A visited pair; the lesser is the one whose `sub` is, then the one whose `sup` is.
#[derive(Clone, Copy, PartialEq, Eq, PartialOrd, Ord)]
pub struct Visited {
    pub sub: u32,
    pub sup: u32,
}

impl Stored for Visited {
    ghost COUNT_AT = { 20 };

    ghost stored = { λ words n. record { sub = record_word words 18 2 n 0; sup = record_word words 18 2 n 1 } };

    const COUNT_AT: usize = image::format::VISITED_COUNT_AT;

    fn read(words: &[u32], n: u32) -> Visited {
        let word = |which: usize| {
            record_word(
                words,
                image::format::VISITED_OFFSET_AT,
                image::format::VISITED_WIDTH,
                n,
                which,
            )
        };
        Visited {
            sub: word(image::format::VISITED_SUB_WORD),
            sup: word(image::format::VISITED_SUP_WORD),
        }
    }
}

// A pair asked equal.
#[derive(Clone, Copy)]
pub struct Equal {
    pub left: u32,
    pub right: u32,
}

impl Stored for Equal {
    ghost COUNT_AT = { 26 };

    ghost stored = { λ words n. record { left = record_word words 24 2 n 0; right = record_word words 24 2 n 1 } };

    const COUNT_AT: usize = image::format::EQUALS_COUNT_AT;

    fn read(words: &[u32], n: u32) -> Equal {
        let word = |which: usize| {
            record_word(
                words,
                image::format::EQUALS_OFFSET_AT,
                image::format::EQUALS_WIDTH,
                n,
                which,
            )
        };
        Equal {
            left: word(image::format::EQUAL_LEFT_WORD),
            right: word(image::format::EQUAL_RIGHT_WORD),
        }
    }
}

// The records of a kind that a table has, from number `next` on.
#[derive(Drop)]
pub struct Records<'a, R> {
    pub words: &'a [u32],
    pub next: u32,
    pub end: u32,
    pub kind: PhantomData<R>,
}

// Every record of a kind.
pub fn each<R: Stored>(words: &[u32]) -> Records<'_, R>
    ensures words { result.words.now ≡ words.now }
    ensures first { result.next ≡ 0 }
    ensures count { result.end ≡ slice_index_or words.now R.COUNT_AT 0 }
{
    Records {
        words,
        next: 0,
        end: word(words, R::COUNT_AT),
        kind: PhantomData,
    }
}

impl<'a, R: Stored> Iterator for Records<'a, R> {
    type Item = R;

    ghost remaining = { λ s. at_most (s.end - s.next) };

    fn next(&mut self) -> Option<R> {
        if self.end <= self.next {
            return None;
        }
        let n = self.next;
        self.next += 1;
        Some(R::read(self.words, n))
    }
}
