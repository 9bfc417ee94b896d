// The numbers of the format and its limits, as in the model's Format: the crates above have them from here. They stay numbers: they are
// the words of document 01's image, which C, Python and stored images hold, and the contracts speak of words.

// Where the header has each word: the first nine, then offset, capacity and count of each region. It has 27.
pub const FORMAT_AT: usize = 0;

pub const STATE_AT: usize = 1;

pub const BREAK_KIND_AT: usize = 2;

pub const BREAK_SUB_AT: usize = 3;

pub const BREAK_SUP_AT: usize = 4;

pub const BREAK_NAME_AT: usize = 5;

pub const LEVEL_AT: usize = 6;

pub const NAMES_AT: usize = 7;

pub const FUNCTOR_AT: usize = 8;

// Region k's offset, capacity and count stand k steps behind these; k counts from 1.
pub const OFFSET_AT: usize = 6;

pub const CAPACITY_AT: usize = 7;

pub const COUNT_AT: usize = 8;

pub const REGION_STEP: usize = 3;

// The same by name.
pub const ENTRIES_OFFSET_AT: usize = 9;

pub const ENTRIES_CAPACITY_AT: usize = 10;

pub const ENTRIES_COUNT_AT: usize = 11;

pub const FIELDS_OFFSET_AT: usize = 12;

pub const FIELDS_CAPACITY_AT: usize = 13;

pub const FIELDS_COUNT_AT: usize = 14;

pub const BOUNDS_OFFSET_AT: usize = 15;

pub const BOUNDS_CAPACITY_AT: usize = 16;

pub const BOUNDS_COUNT_AT: usize = 17;

pub const VISITED_OFFSET_AT: usize = 18;

pub const VISITED_CAPACITY_AT: usize = 19;

pub const VISITED_COUNT_AT: usize = 20;

pub const PENDING_OFFSET_AT: usize = 21;

pub const PENDING_CAPACITY_AT: usize = 22;

pub const PENDING_COUNT_AT: usize = 23;

pub const EQUALS_OFFSET_AT: usize = 24;

pub const EQUALS_CAPACITY_AT: usize = 25;

pub const EQUALS_COUNT_AT: usize = 26;

pub const HEADER_WORDS: usize = 27;

// The format that word 0 says.
pub const FORMAT: u32 = 1;

// State: idle, asked.
pub const IDLE: u32 = 0;

pub const ASKED: u32 = 1;

// Break kind: none, mismatch, missing field.
pub const UNBROKEN: u32 = 0;

pub const MISMATCHED: u32 = 1;

pub const FIELD_MISSING: u32 = 2;

// The regions, by their numbers.
pub const ENTRIES: u32 = 1;

pub const FIELDS: u32 = 2;

pub const BOUNDS: u32 = 3;

pub const VISITED: u32 = 4;

pub const PENDING: u32 = 5;

pub const EQUALS: u32 = 6;

// The same, as they are counted through.
pub const IN_ENTRIES: usize = ENTRIES as usize;

pub const IN_FIELDS: usize = FIELDS as usize;

pub const IN_BOUNDS: usize = BOUNDS as usize;

pub const IN_VISITED: usize = VISITED as usize;

pub const IN_PENDING: usize = PENDING as usize;

pub const IN_EQUALS: usize = EQUALS as usize;

// How many regions there are.
pub const REGIONS: usize = 6;

// How many of them, from the first on, have their records in a row, free ones behind them.
pub const ROWS: usize = 6;

// Words per record.
pub const ENTRY_WIDTH: usize = 7;

pub const FIELD_WIDTH: usize = 3;

pub const BOUND_WIDTH: usize = 3;

pub const VISITED_WIDTH: usize = 2;

pub const PENDING_WIDTH: usize = 2;

pub const EQUALS_WIDTH: usize = 2;

// Where an entry has its words.
pub const KIND_WORD: usize = 0;

pub const X_WORD: usize = 1;

pub const Y_WORD: usize = 2;

pub const Z_WORD: usize = 3;

pub const FLAGS_WORD: usize = 4;

pub const SPREAD_WORD: usize = 5;

pub const NEGATION_WORD: usize = 6;

// Where a field record has its words.
pub const NAME_WORD: usize = 0;

pub const ENTRY_WORD: usize = 1;

pub const OPTIONAL_WORD: usize = 2;

// Where a bound record has its words.
pub const VARIABLE_WORD: usize = 0;

pub const SIDE_WORD: usize = 1;

pub const BOUND_WORD: usize = 2;

// Where a visited record has its words, a pending one, and one of equals.
pub const VISITED_SUB_WORD: usize = 0;

pub const VISITED_SUP_WORD: usize = 1;

pub const PENDING_SUB_WORD: usize = 0;

pub const PENDING_SUP_WORD: usize = 1;

pub const EQUAL_LEFT_WORD: usize = 0;

pub const EQUAL_RIGHT_WORD: usize = 1;

// Kinds.
pub const VARIABLE: u32 = 0;

pub const PRIMITIVE: u32 = 1;

pub const LIST: u32 = 2;

pub const LAMBDA: u32 = 3;

pub const ATTRSET: u32 = 4;

pub const NAMED: u32 = 5;

pub const NEG: u32 = 6;

pub const INTER: u32 = 7;

pub const UNION: u32 = 8;

// Primitives that the rules name: Int, Float, and the last, Number.
pub const INT: u32 = 2;

pub const FLOAT: u32 = 3;

pub const NUMBER: u32 = 7;

// Flags: default mark, of any kind; of attrsets also open and dynamic present.
pub const MARK_FLAG: u32 = 1;

pub const OPEN_FLAG: u32 = 2;

pub const DYNAMIC_FLAG: u32 = 4;

// An optional field; one that is not has 0.
pub const OPTIONAL: u32 = 1;

// Side: lower, upper.
pub const LOWER: u32 = 0;

pub const UPPER: u32 = 1;

// Capacity at most.
pub const ENTRIES_MOST: u32 = 4096;

pub const FIELDS_MOST: u32 = 16384;

pub const BOUNDS_MOST: u32 = 65536;

pub const VISITED_MOST: u32 = 65536;

pub const PENDING_MOST: u32 = 65536;

pub const EQUALS_MOST: u32 = 65536;

// The same, region by region.
pub const WIDTHS: [usize; 6] = [7, 3, 3, 2, 2, 2];

pub const MOSTS: [u32; 6] = [4096, 16384, 65536, 65536, 65536, 65536];

// At most so many names.
pub const NAMES_MOST: u32 = 4096;

// Spread is at most this.
pub const SPREAD_MOST: u32 = 1024;

// Adding a bound scans for a duplicate while the list holds so many or fewer.
pub const SCAN_MOST: u32 = 32;
