// Bounds, marks and levels in an image.

#![tactic(auto)]

ghost use Rattle.std.specs.Prelude.{◌≡◌, ◌<◌, ◌≤◌, length, T, eqb};
ghost use Rattle.model.specs.Lists.{any};
ghost use Rattle.model.specs.Image.{words};
ghost use Rattle.model.specs.Making.{bounds_in, repeats, changed, mark_entry};
ghost use Rattle.model.specs.Formed.{well_formed};
ghost use Rattle.model.specs.Calls.{with_x};
ghost use Rattle.model.specs.Told.{bit, told_reply};
ghost use Rattle.image.specs.Laid.{Laid};
ghost use Rattle.image.specs.Shown.{Shown, entries_of, bounds_all, entries_to};
ghost use Rattle.image.specs.Records.{bound_at};
ghost use Rattle.storage.specs.Bounds.{belongs_to, is_bound};
ghost use Rattle.storage.specs.Replies.{bound_response, enter_response, exit_response};

use image::Bounds;
use model::Refusal;

// The last level.
const LEVEL_MOST: u32 = 4294967295;

// Whether bound record i is one of the variable v on that side.
pub fn belongs(image: &[u32], i: u32, v: u32, side: u32) -> bool
    requires laid { Laid image.now }
    requires i_in_bounds { i < length (bounds_all image.now) }
    ensures { result ≡ belongs_to v side (bound_at (bounds_all image.now) i) }
{
    let of = image::word::<Bounds>(image, i, image::format::VARIABLE_WORD);
    let on = image::word::<Bounds>(image, i, image::format::SIDE_WORD);
    (of == v) & (on == side)
}

// 1 for a test that passes, else 0.
fn bit(passed: bool) -> u32
    ensures { (result ≡ bit passed) × (result ≤ 1) }
{
    if passed { 1 } else { 0 }
}

// How many bounds v has on a side, among the first n records.
pub fn count_bounds(image: &[u32], n: u32, v: u32, side: u32) -> u32
    requires laid { Laid image.now }
    requires n_value { n ≡ length (bounds_all image.now) }
    ensures { result ≡ length (bounds_in (bounds_all image.now) v side) }
{
    let mut found: u32 = 0;
    for i in 0..n {
        found += bit(belongs(image, i, v, side));
    }
    found
}

// Whether bound record i is b, for the variable v on that side.
fn is_bound(image: &[u32], i: u32, v: u32, side: u32, b: u32) -> bool
    requires laid { Laid image.now }
    requires i_in_bounds { i < length (bounds_all image.now) }
    ensures { result ≡ is_bound v side b (bound_at (bounds_all image.now) i) }
{
    let of = belongs(image, i, v, side);
    let bound = image::word::<Bounds>(image, i, image::format::BOUND_WORD);
    of & (b == bound)
}

// Whether b is among the bounds of v on a side, of the first n records.
pub fn has_bound(image: &[u32], n: u32, v: u32, side: u32, b: u32) -> bool
    requires laid { Laid image.now }
    requires n_value { n ≡ length (bounds_all image.now) }
    ensures { result ≡ any (eqb b) (bounds_in (bounds_all image.now) v side) }
{
    for i in 0..n {
        if is_bound(image, i, v, side, b) {
            return true;
        }
    }
    false
}

// Whether b would repeat a bound of v on a side: a longer list is not scanned.
#[tactic(auto, using(crate::proofs::Replying::scanned, crate::proofs::Replying::not_scanned))]
pub fn repeats_bound(image: &[u32], n: u32, v: u32, side: u32, b: u32) -> bool
    requires laid { Laid image.now }
    requires n_value { n ≡ length (bounds_all image.now) }
    ensures { result ≡ repeats (bounds_in (bounds_all image.now) v side) b }
{
    if image::format::SCAN_MOST < count_bounds(image, n, v, side) {
        return false;
    }
    has_bound(image, n, v, side, b)
}

// Puts b as a bound of v on a side, unless it would repeat one.
pub fn put_bound(image: &mut [u32], v: u32, side: u32, b: u32) -> Result<(), Refusal>
    requires { T (well_formed image.old) }
    ensures result_value { told_reply result ≡ (bound_response image.old v side b).says }
    ensures image_after { image.new ≡ (bound_response image.old v side b).words }
{
    let n = image::records::<Bounds>(image);
    if repeats_bound(image, n, v, side, b) {
        return Ok(());
    }
    if image::room::<Bounds>(image) <= n {
        return Err(Refusal::NoRoom(image::format::BOUNDS));
    }
    writes::push::<Bounds>(image, &[v, side, b]);
    Ok(())
}

// Marks entry n.
pub fn mark(image: &mut [u32], n: u32)
    requires shown { Shown image.old }
    requires n_in_bounds { n < length (entries_of image.old) }
    ensures { image.new ≡ words (entries_to image.old (mark_entry n (entries_of image.old))) }
{
    writes::put_mark(image, n);
}

// Puts the variable v at level l.
pub fn set_var_level(image: &mut [u32], v: u32, l: u32)
    requires shown { Shown image.old }
    requires v_in_bounds { v < length (entries_of image.old) }
    ensures { image.new ≡ words (entries_to image.old (changed (with_x l) (entries_of image.old) v)) }
{
    writes::put_level(image, v, l);
}

// Enters a level.
pub fn enter_level(image: &mut [u32]) -> Result<(), Refusal>
    requires { Shown image.old }
    ensures result_value { told_reply result ≡ (enter_response image.old).says }
    ensures image_after { image.new ≡ (enter_response image.old).words }
{
    let l = image::level(image);
    if l == LEVEL_MOST {
        return Err(Refusal::Level);
    }
    writes::put_current_level(image, l + 1);
    Ok(())
}

// Leaves a level.
pub fn exit_level(image: &mut [u32]) -> Result<(), Refusal>
    requires { Shown image.old }
    ensures result_value { told_reply result ≡ (exit_response image.old).says }
    ensures image_after { image.new ≡ (exit_response image.old).words }
{
    let l = image::level(image);
    if l == 0 {
        return Err(Refusal::Level);
    }
    writes::put_current_level(image, l - 1);
    Ok(())
}
