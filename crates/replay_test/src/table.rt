// The table that every script is run in, and what is looked for in it.
use crate::line::Line;
use image::format::{BOUNDS, ENTRIES, INTER, NAMED, UNION, VARIABLE};
use model::{Attrset, Instalment, Record, Refusal};
use std::alloc::{AllocError, Global};
use table_words::{Entry, Field, Header, Stored, size_of};

// How many records each region takes.
const CAPACITIES: image::Capacities = image::Capacities {
    entries: 200,
    fields: 120,
    bounds: 160,
    visited: 240,
    pending: 240,
    equals: 8,
};

// How deep is looked.
const DEPTH: u32 = 100;

// What is read where there is no entry.
const NO_ENTRY: Entry = Entry {
    kind: 99,
    x: 0,
    y: 0,
    z: 0,
    flags: 0,
    spread: 0,
    negation: 0,
};

// Its words.
#[derive(Drop)]
pub struct Table {
    words: Vec<u32>,
}

impl Table {
    // The words, before a script starts.
    pub fn new(alloc: Global) -> Result<Table, AllocError> {
        Ok(Table {
            words: vec![in alloc; 7; size_of(CAPACITIES)]?,
        })
    }

    // Starts a script.
    pub fn start(&mut self, names: u32, functor: u32) -> Result<(), Refusal> {
        sheafwinch::start(&mut self.words, names, functor, CAPACITIES)
    }

    // Makes an entry, where the line makes one. Its first number is that of the entry, the others are what it is made of:
    // a dynamic type is told by its number plus 1, or 0.
    pub fn make(&mut self, line: &Line) -> Option<Result<u32, Refusal>> {
        let x = line.number(1);
        let y = line.number(2);
        let words = &mut self.words;
        Some(match line.letter {
            b'v' => sheafwinch::make_variable(words),
            b'p' => sheafwinch::make_primitive(words, x),
            b'l' => sheafwinch::make_list(words, x),
            b'f' => sheafwinch::make_lambda(words, x, y),
            b't' => sheafwinch::make_attrset(words, line.from(3), x != 0, y.checked_sub(1)),
            b'd' => sheafwinch::make_named(words, x, y),
            b'g' => sheafwinch::make_neg(words, x),
            b'i' => sheafwinch::make_inter(words, x, y),
            b'u' => sheafwinch::make_union(words, x, y),
            _ => return None,
        })
    }

    // Marks an entry.
    pub fn mark(&mut self, n: u32) -> Result<(), Refusal> {
        sheafwinch::mark(&mut self.words, n)
    }

    // Puts a bound on a variable.
    pub fn put_bound(&mut self, variable: u32, side: u32, bound: u32) -> Result<(), Refusal> {
        sheafwinch::put_bound(&mut self.words, variable, side, bound)
    }

    // Sets a variable's level.
    pub fn set_level(&mut self, variable: u32, level: u32) -> Result<(), Refusal> {
        sheafwinch::set_level(&mut self.words, variable, level)
    }

    // Goes a level up.
    pub fn enter(&mut self) -> Result<(), Refusal> {
        sheafwinch::enter(&mut self.words)
    }

    // Goes a level down.
    pub fn exit(&mut self) -> Result<(), Refusal> {
        sheafwinch::exit(&mut self.words)
    }

    // Opens a line's question, plain.
    pub fn open(&mut self, line: &Line, budget: u32) -> Result<Instalment, Refusal> {
        let left = line.number(0);
        let right = line.number(1);
        let words = &mut self.words;
        match line.letter {
            b'a' => sheafwinch::open(words, false, left, right, budget),
            _ => sheafwinch::open_equal(words, false, left, right, budget),
        }
    }

    // Works it on.
    pub fn work(&mut self, budget: u32) -> Instalment {
        sheafwinch::work(&mut self.words, budget)
    }

    // Gives it up.
    pub fn abandon(&mut self) -> Result<(), Refusal> {
        sheafwinch::abandon(&mut self.words)
    }

    // Reads an entry.
    pub fn entry(&self, n: u32) -> Entry {
        let Ok(record) = sheafwinch::record(&self.words, ENTRIES, n) else {
            return NO_ENTRY;
        };
        match record {
            Record::Entry {
                kind,
                x,
                y,
                z,
                flags,
                spread,
                negation,
            } => {
                Entry {
                    kind,
                    x,
                    y,
                    z,
                    flags,
                    spread,
                    negation,
                }
            }
            _ => NO_ENTRY,
        }
    }

    // Reads a record of another region: its words, of a pair with a 0 behind them.
    pub fn record(&self, region: u32, n: u32) -> Option<[u32; 3]> {
        match sheafwinch::record(&self.words, region, n).ok()? {
            Record::Field {
                name,
                entry,
                optional,
            } => Some([name, entry, optional]),
            Record::Bound {
                variable,
                side,
                bound,
            } => Some([variable, side, bound]),
            Record::Visited { sub, sup } => Some([sub, sup, 0]),
            Record::Equal { left, right } => Some([left, right, 0]),
            Record::Entry { .. } | Record::Pending { .. } => None,
        }
    }

    // The first bound of a variable and a side from a record on: its number, and its words.
    pub fn bound_from(&self, of: (u32, u32), from: u32) -> Option<(u32, [u32; 3])> {
        for n in from..CAPACITIES.bounds {
            if let Some(words) = self.record(BOUNDS, n) {
                let [variable, side, _] = words;
                if (variable, side) == of {
                    return Some((n, words));
                }
            }
        }
        None
    }

    // Whether two entries are disjoint, which no variable is.
    pub fn is_disjoint(&self, a: u32, b: u32) -> bool {
        sheafwinch::disjoint(&self.words, a, b).unwrap_or(false)
    }

    // The header as it stands.
    pub fn header(&self) -> Header {
        Header::from(self.words.as_slice())
    }

    // An entry's words as they stand.
    pub fn stored(&self, n: u32) -> Entry {
        Entry::read(&self.words, n)
    }

    // A field's.
    pub fn field(&self, n: u32) -> Field {
        Field::read(&self.words, n)
    }

    // Whether an attrset has a field of this name.
    pub fn has_field(&self, attrset: Attrset, name: u32) -> bool {
        (0..attrset.count).any(|i| self.field(attrset.first.wrapping_add(i)).name == name)
    }

    // Whether an entry is a variable.
    pub fn is_variable(&self, n: u32) -> bool {
        self.stored(n).kind == VARIABLE
    }

    // Whether an entry leads to a variable through inter and named.
    pub fn holds_variable(&self, n: u32) -> bool {
        self.leads(n, &[INTER, NAMED], DEPTH, &|part| self.is_variable(part))
    }

    // Whether an entry, or a component of intersections, is disjoint from m.
    pub fn parts_disjoint(&self, n: u32, m: u32) -> bool {
        self.leads(n, &[INTER], DEPTH, &|part| self.is_disjoint(part, m))
    }

    // Whether m is an entry, or a component of unions and named.
    pub fn is_member(&self, n: u32, m: u32) -> bool {
        self.leads(n, &[UNION, NAMED], DEPTH, &|part| part == m)
    }

    // Whether an entry, or one that it leads to through these kinds, is what is looked for.
    fn leads<F: Fn(u32) -> bool>(&self, n: u32, through: &[u32], depth: u32, is_found: &F) -> bool
        requires { F.IsAlwaysCallable is_found.now }
    {
        if depth == 0 {
            return false;
        }
        if is_found(n) {
            return true;
        }
        let e = self.stored(n);
        if !through.contains(&e.kind) {
            return false;
        }
        if self.leads(e.x, through, depth - 1, is_found) {
            return true;
        }
        e.kind != NAMED && self.leads(e.y, through, depth - 1, is_found)
    }
}
