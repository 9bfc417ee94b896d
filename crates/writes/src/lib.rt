// What changes an image: records put behind the last of a region and taken off, words of an entry, the break, the level, and the doors
// through which a question is opened and ended. Each says which table the words show then.

#![tactic(auto)]

ghost use Rattle.std.specs.Prelude.{◌≡◌, ℕ, List, [], ◌∷◌, ◌++◌, ◌+◌, ◌-◌, ◌*◌, ◌≤◌, ◌<◌, length, set, take};
ghost use Rattle.std.proofs.lemmas.List.Edits.{sets};
ghost use Rattle.model.specs.Format.{idle, asked, entry_width, header_words};
ghost use Rattle.model.specs.Table.{Table, ◌⊑◌};
ghost use Rattle.model.specs.Image.{capacity, count, table};
ghost use Rattle.model.specs.Making.{changed, with_negation, with_mark};
ghost use Rattle.model.specs.Calls.{with_x};
ghost use Rattle.image.specs.Laid.{Laid, At};
ghost use Rattle.image.specs.Shown.{Shows, Shown, ShowsAs, ShownAs, store_of, entries_of, pending_in};
ghost use Rattle.image.specs.Shown.{entries_to, pending_to, broken_to, level_to};
ghost use Rattle.image.specs.Stores.{appended, removed};
ghost use Rattle.image.specs.Records.{entry_made};
ghost use Rattle.writes.specs.Grown.{entries_pushed, fields_pushed, bounds_pushed, visited_pushed, pending_pushed, equals_pushed};
ghost use Rattle.writes.specs.Grown.{entries_popped, fields_popped, bounds_popped, visited_popped, pending_popped, equals_popped};
ghost use Rattle.writes.specs.Grown.{entries_grown, fields_grown, bounds_grown, visited_grown, pending_grown, equals_grown};
ghost use Rattle.writes.specs.Grown.{entries_shrunk, fields_shrunk, bounds_shrunk, visited_shrunk, pending_shrunk, equals_shrunk};

use image::{Bounds, Entries, Equals, Fields, Pending, Region, Visited};

// Writes a record's words into a region that is lent from its offset on.
pub fn put_row(region: &mut [u32], start: usize, row: &[u32])
    requires { start + length row.now ≤ length region.old }
    ensures { region.new ≡ sets region.old start row.now }
{
    for i in 0..row.len() {
        region[start + i] = row[i];
    }
}

// What a region says of the table when a record is put behind its last, and when its last is taken off; then what the words show.
pub trait Grows: Region {
    ghost pushed: { List ℕ → List ℕ → Table };

    ghost popped: { List ℕ → Table };

    ghost grown: { (state : ℕ) (w : List ℕ) → ShownAs state w → (r : List ℕ) → length r ≡ Self.WIDTH → Self.many w < Self.room w → ShowsAs state (appended w Self.NUMBER Self.WIDTH r) (pushed w r) };

    ghost shrunk: { (state : ℕ) (w : List ℕ) → ShownAs state w → 0 < Self.many w → ShowsAs state (removed w Self.NUMBER Self.WIDTH) (popped w) };
}

impl Grows for Entries {
    ghost pushed = { entries_pushed };

    ghost popped = { entries_popped };

    ghost grown = { entries_grown };

    ghost shrunk = { entries_shrunk };
}

impl Grows for Fields {
    ghost pushed = { fields_pushed };

    ghost popped = { fields_popped };

    ghost grown = { fields_grown };

    ghost shrunk = { fields_shrunk };
}

impl Grows for Bounds {
    ghost pushed = { bounds_pushed };

    ghost popped = { bounds_popped };

    ghost grown = { bounds_grown };

    ghost shrunk = { bounds_shrunk };
}

impl Grows for Visited {
    ghost pushed = { visited_pushed };

    ghost popped = { visited_popped };

    ghost grown = { visited_grown };

    ghost shrunk = { visited_shrunk };
}

impl Grows for Pending {
    ghost pushed = { pending_pushed };

    ghost popped = { pending_popped };

    ghost grown = { pending_grown };

    ghost shrunk = { pending_shrunk };
}

impl Grows for Equals {
    ghost pushed = { equals_pushed };

    ghost popped = { equals_popped };

    ghost grown = { equals_grown };

    ghost shrunk = { equals_shrunk };
}

// Puts a record behind the last of a region, whose words are lent on from its offset.
fn append(image: &mut [u32], region: usize, width: usize, row: &[u32])
    requires at { At image.old region width }
    requires region_bound { count image.old region < capacity image.old region }
    requires row_len { length row.now ≡ width }
    ensures { image.new ≡ appended image.old region width row.now }
{
    let at = image::wide(image[image::format::OFFSET_AT + image::format::REGION_STEP * region]);
    let n = image[image::format::COUNT_AT + image::format::REGION_STEP * region];
    put_row(&mut image[at..], width * image::wide(n), row);
    image[image::format::COUNT_AT + image::format::REGION_STEP * region] = n + 1;
}

// Puts a record behind the last of a region.
pub fn push<R: Grows>(image: &mut [u32], row: &[u32])
    requires laid { Laid image.old }
    requires room { R.many image.old < R.room image.old }
    requires row_len { length row.now ≡ R.WIDTH }
    ensures { (state : ℕ) → ShownAs state image.old → ShowsAs state image.new (R.pushed image.old row.now) }
{
    append(image, R::NUMBER, R::WIDTH, row);
}

// Takes the last record of a region off, and its words with it.
pub fn pop<R: Grows>(image: &mut [u32])
    requires laid { Laid image.old }
    requires nonzero { 0 < R.many image.old }
    ensures { (state : ℕ) → ShownAs state image.old → ShowsAs state image.new (R.popped image.old) }
{
    let n = image::records::<R>(image) - 1;
    let at = R::start(image) + R::WIDTH * image::wide(n);
    image[at..at + R::WIDTH].fill(0);
    image[image::format::COUNT_AT + image::format::REGION_STEP * R::NUMBER] = n;
}

// Puts an entry behind the last, by its words; no negation of it is cached.
pub fn push_entry(image: &mut [u32], kind: u32, x: u32, y: u32, z: u32, flags: u32, spread: u32)
    requires shown { Shown image.old }
    requires image_len_bound { length (entries_of image.old) < (store_of image.old).capacities.entries }
    ensures { Shows image.new (entries_to image.old (entries_of image.old ++ (entry_made kind x y z flags spread ∷ []))) }
{
    push::<Entries>(image, &[kind, x, y, z, flags, spread, 0]);
}

// Writes word j of entry i.
fn put_entry_word(image: &mut [u32], i: u32, j: usize, v: u32)
    requires laid { Laid image.old }
    requires i_in_bounds { i < length (entries_of image.old) }
    requires j_lt_entry_width { j < entry_width }
    ensures { image.new ≡ set image.old (header_words + entry_width * i + j) v }
{
    image[image::format::HEADER_WORDS + image::format::ENTRY_WIDTH * image::wide(i) + j] = v;
}

// Caches a negation at entry i: c is its number plus 1, or 0.
pub fn put_negation(image: &mut [u32], i: u32, c: u32)
    requires shown { Shown image.old }
    requires i_in_bounds { i < length (entries_of image.old) }
    ensures { Shows image.new (entries_to image.old (changed (with_negation c) (entries_of image.old) i)) }
{
    put_entry_word(image, i, image::format::NEGATION_WORD, c);
}

// Marks entry i.
pub fn put_mark(image: &mut [u32], i: u32)
    requires shown { Shown image.old }
    requires i_in_bounds { i < length (entries_of image.old) }
    ensures { Shows image.new (entries_to image.old (changed with_mark (entries_of image.old) i)) }
{
    let flags = image::word::<Entries>(image, i, image::format::FLAGS_WORD);
    put_entry_word(
        image,
        i,
        image::format::FLAGS_WORD,
        flags - flags % 2 + image::format::MARK_FLAG,
    );
}

// Puts entry i, a variable, at level l.
pub fn put_level(image: &mut [u32], i: u32, l: u32)
    requires shown { Shown image.old }
    requires i_in_bounds { i < length (entries_of image.old) }
    ensures { Shows image.new (entries_to image.old (changed (with_x l) (entries_of image.old) i)) }
{
    put_entry_word(image, i, image::format::X_WORD, l);
}

// After start the state word is written where a question is opened and where it is ended, and nowhere else: what puts pairs on pending
// and takes them off leaves it.

// Opens the question whose pairs are pending.
pub fn open_question(image: &mut [u32])
    requires shown_as { ShownAs idle image.old }
    requires nonzero { 0 < length (pending_in image.old) }
    ensures { Shows image.new (table image.old) }
{
    image[image::format::STATE_AT] = image::format::ASKED;
}

// Takes every pending pair off.
fn clear_pending(image: &mut [u32])
    requires { ShownAs asked image.old }
    ensures { ShowsAs asked image.new (pending_to image.old []) }
{
    while 0 < image[image::format::PENDING_COUNT_AT] {
        pop::<Pending>(image);
    }
}

// Ends the question, if nothing is pending.
#[tactic(auto, using(crate::proofs::Pending::ended, crate::proofs::Pending::not_ended))]
pub fn end_if_done(image: &mut [u32])
    requires { ShownAs asked image.old }
    ensures { Shows image.new (table image.old) }
{
    if image[image::format::PENDING_COUNT_AT] == 0 {
        image[image::format::STATE_AT] = image::format::IDLE;
    }
}

// Ends the question, whatever is pending.
pub fn end_question(image: &mut [u32])
    requires { ShownAs asked image.old }
    ensures { Shows image.new (pending_to image.old []) }
{
    clear_pending(image);
    end_if_done(image);
}

// Writes the break words.
pub fn put_break(image: &mut [u32], kind: u32, sub: u32, sup: u32, name: u32)
    requires { Shown image.old }
    ensures { Shows image.new (broken_to image.old (record { kind = kind; sub = sub; sup = sup; name = name })) }
{
    image[image::format::BREAK_KIND_AT] = kind;
    image[image::format::BREAK_SUB_AT] = sub;
    image[image::format::BREAK_SUP_AT] = sup;
    image[image::format::BREAK_NAME_AT] = name;
}

// Puts the current level.
pub fn put_current_level(image: &mut [u32], l: u32)
    requires { Shown image.old }
    ensures { Shows image.new (level_to image.old l) }
{
    image[image::format::LEVEL_AT] = l;
}
