// The reads of a well formed image: an entry, a region's record, whether two entries are disjoint. Each is what the model's turn of that
// call does. Crate `sheafwinch` has the calls.

#![tactic(auto)]

ghost use Rattle.std.specs.Prelude.{◌≡◌, T};
ghost use Rattle.model.specs.Image.{table};
ghost use Rattle.model.specs.Formed.{well_formed};
ghost use Rattle.model.specs.Calls.{response_of, read_entry_turn, read_record_turn, read_disjoint_turn};
ghost use Rattle.model.specs.Told.{told_entry_read, told_record, told_disjointness};

use image::{Bounds, Entries, Equals, Fields, Pending, Visited};
use model::{Entry, Record, Refusal};

// Reads an entry out.
pub fn entry_in(image: &[u32], n: u32) -> Result<Entry, Refusal>
    requires { T (well_formed image.now) }
    ensures { told_entry_read result ≡ (response_of image.now (read_entry_turn n (table image.now))).says }
{
    if image::records::<Entries>(image) <= n {
        return Err(Refusal::BadNumber);
    }
    Ok(image::entry(image, n))
}

// Reads record n of a region, 1 to 6, as it stands.
pub fn record_in(image: &[u32], region: u32, n: u32) -> Result<Record, Refusal>
    requires { T (well_formed image.now) }
    ensures { told_record result ≡ (response_of image.now (read_record_turn region n image.now)).says }
{
    match region {
        1 => entry_record(image, n),
        2 => field_record(image, n),
        3 => bound_record(image, n),
        4 => visited_record(image, n),
        5 => pending_record(image, n),
        6 => equal_record(image, n),
        _ => Err(Refusal::BadNumber),
    }
}

// A record of region 1. One function for each region: its record has words of its own, and a case of `Record`.
fn entry_record(image: &[u32], n: u32) -> Result<Record, Refusal>
    requires { T (well_formed image.now) }
    ensures { told_record result ≡ (response_of image.now (read_record_turn 1 n image.now)).says }
{
    if image::records::<Entries>(image) <= n {
        return Err(Refusal::BadNumber);
    }
    let kind = image::word::<Entries>(image, n, image::format::KIND_WORD);
    let x = image::word::<Entries>(image, n, image::format::X_WORD);
    let y = image::word::<Entries>(image, n, image::format::Y_WORD);
    let z = image::word::<Entries>(image, n, image::format::Z_WORD);
    let flags = image::word::<Entries>(image, n, image::format::FLAGS_WORD);
    let spread = image::word::<Entries>(image, n, image::format::SPREAD_WORD);
    let negation = image::word::<Entries>(image, n, image::format::NEGATION_WORD);
    Ok(Record::Entry {
        kind,
        x,
        y,
        z,
        flags,
        spread,
        negation,
    })
}

// A record of region 2.
fn field_record(image: &[u32], n: u32) -> Result<Record, Refusal>
    requires { T (well_formed image.now) }
    ensures { told_record result ≡ (response_of image.now (read_record_turn 2 n image.now)).says }
{
    if image::records::<Fields>(image) <= n {
        return Err(Refusal::BadNumber);
    }
    let name = image::word::<Fields>(image, n, image::format::NAME_WORD);
    let entry = image::word::<Fields>(image, n, image::format::ENTRY_WORD);
    let optional = image::word::<Fields>(image, n, image::format::OPTIONAL_WORD);
    Ok(Record::Field {
        name,
        entry,
        optional,
    })
}

// A record of region 3.
fn bound_record(image: &[u32], n: u32) -> Result<Record, Refusal>
    requires { T (well_formed image.now) }
    ensures { told_record result ≡ (response_of image.now (read_record_turn 3 n image.now)).says }
{
    if image::records::<Bounds>(image) <= n {
        return Err(Refusal::BadNumber);
    }
    let variable = image::word::<Bounds>(image, n, image::format::VARIABLE_WORD);
    let side = image::word::<Bounds>(image, n, image::format::SIDE_WORD);
    let bound = image::word::<Bounds>(image, n, image::format::BOUND_WORD);
    Ok(Record::Bound {
        variable,
        side,
        bound,
    })
}

// A record of region 4.
fn visited_record(image: &[u32], n: u32) -> Result<Record, Refusal>
    requires { T (well_formed image.now) }
    ensures { told_record result ≡ (response_of image.now (read_record_turn 4 n image.now)).says }
{
    if image::records::<Visited>(image) <= n {
        return Err(Refusal::BadNumber);
    }
    let sub = image::word::<Visited>(image, n, image::format::VISITED_SUB_WORD);
    let sup = image::word::<Visited>(image, n, image::format::VISITED_SUP_WORD);
    Ok(Record::Visited { sub, sup })
}

// A record of region 5.
fn pending_record(image: &[u32], n: u32) -> Result<Record, Refusal>
    requires { T (well_formed image.now) }
    ensures { told_record result ≡ (response_of image.now (read_record_turn 5 n image.now)).says }
{
    if image::records::<Pending>(image) <= n {
        return Err(Refusal::BadNumber);
    }
    let sub = image::word::<Pending>(image, n, image::format::PENDING_SUB_WORD);
    let sup = image::word::<Pending>(image, n, image::format::PENDING_SUP_WORD);
    Ok(Record::Pending { sub, sup })
}

// A record of region 6.
fn equal_record(image: &[u32], n: u32) -> Result<Record, Refusal>
    requires { T (well_formed image.now) }
    ensures { told_record result ≡ (response_of image.now (read_record_turn 6 n image.now)).says }
{
    if image::records::<Equals>(image) <= n {
        return Err(Refusal::BadNumber);
    }
    let left = image::word::<Equals>(image, n, image::format::EQUAL_LEFT_WORD);
    let right = image::word::<Equals>(image, n, image::format::EQUAL_RIGHT_WORD);
    Ok(Record::Equal { left, right })
}

// Whether two entries share no value.
pub fn disjoint_in(image: &[u32], a: u32, b: u32) -> Result<bool, Refusal>
    requires { T (well_formed image.now) }
    ensures { told_disjointness result ≡ (response_of image.now (read_disjoint_turn a b (table image.now))).says }
{
    if image::records::<Entries>(image) <= a {
        return Err(Refusal::BadNumber);
    }
    if image::records::<Entries>(image) <= b {
        return Err(Refusal::BadNumber);
    }
    if disjoint::are_types_disjoint(image, a, b) {
        Ok(true)
    } else {
        Ok(false)
    }
}
