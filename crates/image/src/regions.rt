// The regions of an image, read record by record: one function for all of them, by what each says of itself.

ghost use Rattle.std.specs.Prelude.{◌≡◌, ℕ, ◌+◌, ◌*◌, ◌<◌, List, length};
ghost use Rattle.model.specs.Format.{entries_region, fields_region, bounds_region, visited_region, pending_region, equals_region, entry_width, field_width, bound_width, visited_width, pending_width, equals_width};
ghost use Rattle.model.specs.Table.{entry_at};
ghost use Rattle.model.specs.Image.{word, offset, capacity, count, entry_words, field_words, bound_words, visited_words, pending_words, equal_words};
ghost use Rattle.image.specs.Laid.{Laid, At};
ghost use Rattle.image.specs.Shown.{store_of, entries_of, fields_in, bounds_all, visited_in, pending_in, equals_in};
ghost use Rattle.image.specs.Records.{field_at, bound_at, visited_at, pending_at, equal_at};
ghost use Rattle.image.specs.Reading.{entries_count, fields_count, bounds_count, visited_count, pending_count, equals_count};
ghost use Rattle.image.specs.Reading.{entries_taken, fields_taken, bounds_taken, visited_taken, pending_taken, equals_taken};
ghost use Rattle.image.specs.Reading.{entries_lies, fields_lies, bounds_lies, visited_lies, pending_lies, equals_lies};
ghost use Rattle.image.specs.Reading.{entries_read, fields_read, bounds_read, visited_read, pending_read, equals_read};

use crate::{capacity, count, format, wide};

// A region: its number, how wide its records are, and what the table has there: how many records, how many it takes, and the words of
// each. Below `start`, what holds of the words.
pub trait Region {
    const NUMBER: usize;

    const WIDTH: usize;

    ghost NUMBER: { ℕ };

    ghost WIDTH: { ℕ };

    ghost many: { List ℕ → ℕ };

    ghost room: { List ℕ → ℕ };

    ghost words: { List ℕ → ℕ → List ℕ };

    // Where its records start: the header says it.
    fn start(image: &[u32]) -> usize
        requires { Laid image.now }
        ensures { result ≡ offset image.now NUMBER }
    {
        wide(image[format::OFFSET_AT + format::REGION_STEP * Self::NUMBER])
    }

    ghost counted: { (w : List ℕ) → many w ≡ count w NUMBER };

    ghost taken: { (w : List ℕ) → room w ≡ capacity w NUMBER };

    ghost lies: { (w : List ℕ) → Laid w → At w NUMBER WIDTH };

    ghost read: { (w : List ℕ) → Laid w → (i j : ℕ) → i < many w → j < WIDTH → word (words w i) j ≡ word w (offset w NUMBER + WIDTH * i + j) };
}

pub struct Entries;

impl Region for Entries {
    const NUMBER: usize = format::IN_ENTRIES;

    const WIDTH: usize = format::ENTRY_WIDTH;

    ghost NUMBER = { entries_region };

    ghost WIDTH = { entry_width };

    ghost many = { λ w. length (entries_of w) };

    ghost room = { λ w. (store_of w).capacities.entries };

    ghost words = { λ w i. entry_words (entry_at (entries_of w) i) };

    // Behind the header: no word is read for it.
    fn start(image: &[u32]) -> usize {
        format::HEADER_WORDS
    }

    ghost counted = { entries_count };

    ghost taken = { entries_taken };

    ghost lies = { entries_lies };

    ghost read = { entries_read };
}

pub struct Fields;

impl Region for Fields {
    const NUMBER: usize = format::IN_FIELDS;

    const WIDTH: usize = format::FIELD_WIDTH;

    ghost NUMBER = { fields_region };

    ghost WIDTH = { field_width };

    ghost many = { λ w. length (fields_in w) };

    ghost room = { λ w. (store_of w).capacities.fields };

    ghost words = { λ w i. field_words (field_at (fields_in w) i) };

    ghost counted = { fields_count };

    ghost taken = { fields_taken };

    ghost lies = { fields_lies };

    ghost read = { fields_read };
}

pub struct Bounds;

impl Region for Bounds {
    const NUMBER: usize = format::IN_BOUNDS;

    const WIDTH: usize = format::BOUND_WIDTH;

    ghost NUMBER = { bounds_region };

    ghost WIDTH = { bound_width };

    ghost many = { λ w. length (bounds_all w) };

    ghost room = { λ w. (store_of w).capacities.bounds };

    ghost words = { λ w i. bound_words (bound_at (bounds_all w) i) };

    ghost counted = { bounds_count };

    ghost taken = { bounds_taken };

    ghost lies = { bounds_lies };

    ghost read = { bounds_read };
}

pub struct Visited;

impl Region for Visited {
    const NUMBER: usize = format::IN_VISITED;

    const WIDTH: usize = format::VISITED_WIDTH;

    ghost NUMBER = { visited_region };

    ghost WIDTH = { visited_width };

    ghost many = { λ w. length (visited_in w) };

    ghost room = { λ w. (store_of w).capacities.visited };

    ghost words = { λ w i. visited_words (visited_at (visited_in w) i) };

    ghost counted = { visited_count };

    ghost taken = { visited_taken };

    ghost lies = { visited_lies };

    ghost read = { visited_read };
}

pub struct Pending;

impl Region for Pending {
    const NUMBER: usize = format::IN_PENDING;

    const WIDTH: usize = format::PENDING_WIDTH;

    ghost NUMBER = { pending_region };

    ghost WIDTH = { pending_width };

    ghost many = { λ w. length (pending_in w) };

    ghost room = { λ w. (store_of w).capacities.pending };

    ghost words = { λ w i. pending_words (pending_at (pending_in w) i) };

    ghost counted = { pending_count };

    ghost taken = { pending_taken };

    ghost lies = { pending_lies };

    ghost read = { pending_read };
}

pub struct Equals;

impl Region for Equals {
    const NUMBER: usize = format::IN_EQUALS;

    const WIDTH: usize = format::EQUALS_WIDTH;

    ghost NUMBER = { equals_region };

    ghost WIDTH = { equals_width };

    ghost many = { λ w. length (equals_in w) };

    ghost room = { λ w. (store_of w).capacities.equals };

    ghost words = { λ w i. equal_words (equal_at (equals_in w) i) };

    ghost counted = { equals_count };

    ghost taken = { equals_taken };

    ghost lies = { equals_lies };

    ghost read = { equals_read };
}

// How many records the table has in a region, and how many it takes.
pub fn records<R: Region>(image: &[u32]) -> u32
    requires { Laid image.now }
    ensures { result ≡ R.many image.now }
{
    count(image, R::NUMBER)
}

pub fn room<R: Region>(image: &[u32]) -> u32
    requires { Laid image.now }
    ensures { result ≡ R.room image.now }
{
    capacity(image, R::NUMBER)
}

// Word j of record i of a region.
pub fn word<R: Region>(image: &[u32], i: u32, j: usize) -> u32
    requires laid { Laid image.now }
    requires i_in_bounds { i < R.many image.now }
    requires j_in_width { j < R.WIDTH }
    ensures { result ≡ word (R.words image.now i) j }
{
    image[R::start(image) + R::WIDTH * wide(i) + j]
}
