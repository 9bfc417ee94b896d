// Name lists, lent as bytes: the calls that check, count, show, compare and find names, each for any bytes.
// specs/Names.antt says what a name list is and what each call answers; specs/Answers.antt what each answer tells.

#![tactic(auto)]

ghost use Rattle.std.specs.Prelude.{◌≡◌, ◌+◌, ◌*◌, ◌<◌, ◌≤◌, ◌&&◌, length, true, false, Ok, MatchOption, MatchResult};
ghost use Rattle.model.specs.Told.{done, told_reply};
ghost use Rattle.model.specs.declared.Refusal.TheVariants.{BadNames, BadNumber};
ghost use Rattle.names.specs.Names.{u16_at, name_count, name_offset, bytes_at, name_at, header_whole, first_zero, none_falls, last_right, few_names, none_long, ascending, compare_names, name_of, name_number, names_right, check_names, check_name, count_names, compare_at, find_name, show_name, shown_at, place_name};
ghost use Rattle.names.specs.Answers.{told_counted, told_order, told_compared, told_found, told_placed};
ghost use Rattle.names.specs.NamesLaid.{NamesLaid};

use model::Refusal;
use std::cmp::Ordering;

// A list has at most so many names.
const NAMES_MOST: usize = 4096;

// A name has at most so many bytes.
const NAME_MOST: usize = 255;

// Where in its list a name's bytes start, and how many they are.
#[derive(Clone, Copy, Debug, PartialEq, Eq)]
pub struct Placed {
    pub start: u32,
    pub bytes: u32,
}

// The u16, little endian, at a byte of the list.
fn u16_at(list: &[u8], at: usize) -> usize
    requires { at + 2 ≤ length list.now }
    ensures { (result ≡ u16_at list.now at) × (result < 65536) }
{
    u16::from_le_bytes([list[at], list[at + 1]]) as usize
}

// A list whose count and offsets are all there.
#[derive(Clone, Copy)]
struct Header<'a> {
    list: &'a [u8],
    ghost whole: { bytes_at list.now ≤ length list.now },
}

impl<'a> Header<'a> {
    // The header of a list, where it is whole.
    fn read(list: &'a [u8]) -> Option<Self>
        ensures { MatchOption result (header_whole list.entry.now ≡ false) (λ h. (h.list.now ≡ list.entry.now) × (h.list.ref_ptr ≡ list.entry.ref_ptr) × (header_whole list.entry.now ≡ true)) }
    {
        if list.len() >= 4 && 4 + 2 * u16_at(list, 0) <= list.len() {
            Some(Header { list })
        } else {
            None
        }
    }

    // The number of names that the list says it has.
    fn count(&self) -> usize
        ensures { (result ≡ name_count self.now.list.now) × (result < 65536) }
    {
        u16_at(self.list, 0)
    }

    // Offset i, of count+1.
    fn offset(&self, i: usize) -> usize
        requires { i ≤ name_count self.now.list.now }
        ensures { (result ≡ name_offset self.now.list.now i) × (result < 65536) }
    {
        u16_at(self.list, 2 + 2 * i)
    }

    // Where the name bytes start.
    fn bytes_at(&self) -> usize
        ensures { (result ≡ bytes_at self.now.list.now) × (result ≤ 4 + 2 * 65535) }
    {
        4 + 2 * self.count()
    }

    // Where name i starts, and name i - 1 ends.
    fn name_at(&self, i: usize) -> usize
        requires { i ≤ name_count self.now.list.now }
        ensures { (result ≡ name_at self.now.list.now i) × (result < 4 + 3 * 65536) }
    {
        self.bytes_at() + self.offset(i)
    }

    // Whether the first offset is 0.
    fn first_zero(&self) -> bool
        ensures { result ≡ first_zero self.now.list.now }
    {
        self.offset(0) == 0
    }

    // Whether the last offset is the number of bytes left.
    fn last_right(&self) -> bool
        ensures { result ≡ last_right self.now.list.now }
    {
        self.offset(self.count()) == self.list.len() - self.bytes_at()
    }

    // Whether there are not too many names.
    fn few_names(&self) -> bool
        ensures { result ≡ few_names self.now.list.now }
    {
        self.count() <= NAMES_MOST
    }

    // Whether no offset falls below the one before it, and no name is too long.
    fn offsets_right(&self) -> bool
        ensures { result ≡ (none_falls self.now.list.now && none_long self.now.list.now) }
    {
        for i in 0..self.count() {
            if self.offset(i + 1) < self.offset(i) {
                return false;
            }
            if self.offset(i) + NAME_MOST < self.offset(i + 1) {
                return false;
            }
        }
        true
    }
}

// A list whose names lie inside it.
#[derive(Clone, Copy)]
struct Names<'a> {
    header: Header<'a>,
    ghost laid: { NamesLaid header.list.now },
}

impl<'a> Names<'a> {
    // The names of a list that is not malformed. Inlined, so that a call of a short list costs no more than its tests.
    #[tactic(auto, using(crate::proofs::NamesLaying::laid), unfolding(crate::specs::Names::names_right, model::specs::Lists::all_of))]
    #[inline(always)]
    fn read(list: &'a [u8]) -> Result<Self, Refusal>
        ensures { MatchResult result (λ n. (n.header.list.now ≡ list.entry.now) × (n.header.list.ref_ptr ≡ list.entry.ref_ptr) × (names_right list.entry.now ≡ true)) (λ r. (r ≡ BadNames) × (names_right list.entry.now ≡ false)) }
    {
        let header = Header::read(list).ok_or(Refusal::BadNames)?;
        if !(header.first_zero()
            && header.last_right()
            && header.few_names()
            && header.offsets_right())
        {
            return Err(Refusal::BadNames);
        }
        let names = Names { header };
        if names.ascending() {
            Ok(names)
        } else {
            Err(Refusal::BadNames)
        }
    }

    // A name's number, where the list has the name.
    fn number(&self, n: u32) -> Result<usize, Refusal>
        ensures { MatchResult result (λ i. (i ≡ n) × (n < name_count self.now.header.list.now)) (λ r. (r ≡ BadNumber) × (name_count self.now.header.list.now ≤ n)) }
    {
        if (n as usize) < self.header.count() {
            Ok(n as usize)
        } else {
            Err(Refusal::BadNumber)
        }
    }

    // The bytes of name i: a part of the list.
    #[tactic(auto, unfolding(crate::specs::Names::name_of))]
    fn name(&self, i: usize) -> &'a [u8]
        requires { i < name_count self.now.header.list.now }
        ensures bytes { result.now ≡ name_of self.now.header.list.now i }
        ensures place { result.ref_ptr ≡ (self.now.header.list.ref_ptr.0, name_at self.now.header.list.now i + self.now.header.list.ref_ptr.1) }
    {
        let start = self.header.name_at(i);
        let end = self.header.name_at(i + 1);
        &self.header.list[start..end]
    }

    // Whether each name comes before the next.
    fn ascending(&self) -> bool
        ensures { result ≡ ascending self.now.header.list.now }
    {
        for i in 1..self.header.count() {
            if compare_parts(self.name(i - 1), self.name(i)).is_ge() {
                return false;
            }
        }
        true
    }

    // The number of the name that has these bytes.
    fn number_of(&self, bytes: &[u8]) -> Option<u32>
        ensures { told_found (Ok result) ≡ done (name_number self.now.header.list.now bytes.now) }
    {
        for i in 0..self.header.count() {
            if self.name(i) == bytes {
                return Some(i as u32);
            }
        }
        None
    }
}

// So many bytes are compared one by one: most names differ in their first few.
const NEAR: usize = 4;

// How two names compare, each a part of a list: by unsigned bytes, a proper prefix first.
#[inline(always)]
pub fn compare_parts(a: &[u8], b: &[u8]) -> Ordering
    ensures { told_order result ≡ compare_names a.now b.now }
{
    let near = a.len().min(b.len()).min(NEAR);
    for i in 0..near {
        if a[i] != b[i] {
            return a[i].cmp(&b[i]);
        }
    }
    compare_groups(&a[near..], &b[near..])
}

// How two parts compare that are alike so far: the library compares groups of bytes. Never inlined, so that its callers stay small.
#[tactic(auto, using(crate::proofs::Comparing::told_cmp))]
#[inline(never)]
fn compare_groups(a: &[u8], b: &[u8]) -> Ordering
    ensures { told_order result ≡ compare_names a.now b.now }
{
    a.cmp(b)
}

// Tells whether the bytes are a name list.
#[tactic(auto, unfolding(crate::specs::Names::calling))]
pub fn check(list: &[u8]) -> Result<(), Refusal>
    ensures { told_reply result ≡ check_names list.now }
{
    Names::read(list)?;
    Ok(())
}

// Tells whether the list has a name n, and so why `show` gives the empty part.
#[tactic(auto, unfolding(crate::specs::Names::calling))]
pub fn check_name(list: &[u8], n: u32) -> Result<(), Refusal>
    ensures { told_reply result ≡ check_name list.now n }
{
    Names::read(list)?.number(n)?;
    Ok(())
}

// The number of names.
#[tactic(auto, unfolding(crate::specs::Names::calling))]
pub fn count(list: &[u8]) -> Result<u32, Refusal>
    ensures { told_counted result ≡ count_names list.now }
{
    let names = Names::read(list)?;
    Ok(names.header.count() as u32)
}

// The part of the lent list that holds name n; where that is refused, the empty part at its start.
#[tactic(auto, unfolding(crate::specs::Names::calling))]
pub fn show(list: &[u8], n: u32) -> &[u8]
    ensures bytes { result.now ≡ show_name list.now n }
    ensures place { result.ref_ptr ≡ (list.entry.ref_ptr.0, shown_at list.now n + list.entry.ref_ptr.1) }
{
    if let Ok(names) = Names::read(list)
        && let Ok(i) = names.number(n)
    {
        names.name(i)
    } else {
        &list[..0]
    }
}

// Where the part that `show` shows stands: for a caller who cannot be handed a part of the list.
#[tactic(auto, using(crate::proofs::Placing::name_length), unfolding(crate::specs::Names::calling))]
pub fn place(list: &[u8], n: u32) -> Result<Placed, Refusal>
    ensures { told_placed result ≡ place_name list.now n }
{
    let names = Names::read(list)?;
    let i = names.number(n)?;
    let start = names.header.name_at(i);
    let end = names.header.name_at(i + 1);
    Ok(Placed {
        start: start as u32,
        bytes: (end - start) as u32,
    })
}

// How names i and j compare.
#[tactic(auto, unfolding(crate::specs::Names::calling))]
pub fn compare(list: &[u8], i: u32, j: u32) -> Result<Ordering, Refusal>
    ensures { told_compared result ≡ compare_at list.now i j }
{
    let names = Names::read(list)?;
    let i = names.number(i)?;
    let j = names.number(j)?;
    Ok(compare_parts(names.name(i), names.name(j)))
}

// The number of the name that has these bytes.
#[tactic(auto, unfolding(crate::specs::Names::calling))]
pub fn find(list: &[u8], bytes: &[u8]) -> Result<Option<u32>, Refusal>
    ensures { told_found result ≡ find_name list.now bytes.now }
{
    let names = Names::read(list)?;
    Ok(names.number_of(bytes))
}
