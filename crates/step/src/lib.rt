// One step of a question: takes the last pair off pending, decides, makes entries, tests its needs region by region and then depth,
// and applies what was decided, or fails, or is refused with nothing done. Its contract is the model's rule and room.

#![tactic(auto)]

mod consequences;

ghost use Rattle.std.specs.Prelude.{◌≡◌, ◌≤◌, ◌<◌, length, take, T};
ghost use Rattle.instalments.specs.Machine.{goes};
ghost use Rattle.model.specs.Format.{upper};
ghost use Rattle.model.specs.Table.{◌⊑◌, table_of};
ghost use Rattle.model.specs.Image.{table};
ghost use Rattle.model.specs.Formed.{well_formed};
ghost use Rattle.model.specs.Making.{too_deep, bounds_in, repeats, add_bound};
ghost use Rattle.model.specs.Rules.{rule, visit, failing, fill_break, outcome_of, pass_mark, join_bounds};
ghost use Rattle.laws.specs.Good.{Good, Shallow};
ghost use Rattle.image.specs.Laid.{Laid};
ghost use Rattle.image.specs.Shown.{Shows, Shown, store_of, graph_in, entries_of, fields_in, bounds_all, visited_in, pending_in, entries_to, bounds_to, pending_to};
ghost use Rattle.type_table.specs.Made.{Negatable};
ghost use Rattle.constrain.specs.Next.{pairs_in, PairsRight, Applicable};
ghost use Rattle.constrain.specs.declared.Next.TheVariants.{Isolate, Functor};
ghost use Rattle.step.specs.Taken.{before_last, last_pair, Midway, taken, outcome_for, RoomFor, RoomForBound};
ghost use Rattle.step.specs.Made.{TargetIn, settled};

use constrain::{Next, Pairs};
use image::{Bounds, Entries, Pending, Visited};
use model::{Failure, Refusal};

// What a step comes to that is not refused.
#[derive(Clone, Copy, Debug, PartialEq, Eq)]
pub enum Step {
    Went,
    Failed(Failure),
}

// Records the pair as visited and takes the last one off pending.
fn advance(image: &mut [u32], sub: u32, sup: u32)
    requires shown { Shown image.old }
    requires image_len_bound { length (visited_in image.old) < (store_of image.old).capacities.visited }
    requires nonzero { 0 < length (pending_in image.old) }
    ensures { Midway image.new (table_of (visit (sub ⊑ sup) (store_of image.old)) (before_last image.old)) }
{
    writes::push::<Visited>(image, &[sub, sup]);
    writes::pop::<Pending>(image);
}

// Takes the last pair off pending, with nothing to record and nothing to follow.
fn skip(image: &mut [u32])
    requires shown { Shown image.old }
    requires nonzero { 0 < length (pending_in image.old) }
    ensures { Shows image.new (pending_to image.old (before_last image.old)) }
{
    writes::pop::<Pending>(image);
    writes::end_if_done(image);
}

// Whether there is room for a visited pair and so many consequences, the pair taken off first.
fn room_for(image: &[u32], more: u32) -> Result<(), Refusal>
    requires t { T (well_formed image.now) }
    requires nonzero { 0 < length (pending_in image.now) }
    ensures { RoomFor image.now (store_of image.now) more result }
{
    if image::room::<Visited>(image) <= image::records::<Visited>(image) {
        return Err(Refusal::NoRoom(image::format::VISITED));
    }
    let others = image::records::<Pending>(image) - 1;
    if image::room::<Pending>(image) - others < more {
        return Err(Refusal::NoRoom(image::format::PENDING));
    }
    Ok(())
}

// Writes the break words, unless an earlier failure stands there.
fn fill_break(image: &mut [u32], failure: Failure)
    requires { Shown image.old }
    ensures { Shows image.new (table_of (fill_break failure (store_of image.old)) (pending_in image.old)) }
{
    if image::break_kind(image) != image::format::UNBROKEN {
        return;
    }
    match failure {
        Failure::Mismatch { sub, sup } => writes::put_break(
            image,
            image::format::MISMATCHED,
            sub,
            sup,
            0,
        ),
        Failure::MissingField { sub, sup, name } => {
            writes::put_break(image, image::format::FIELD_MISSING, sub, sup, name)
        }
    }
}

// Fails: the visited pair is kept, pending is emptied.
fn fail(image: &mut [u32], sub: u32, sup: u32, failure: Failure) -> Result<Step, Refusal>
    requires t { T (well_formed image.old) }
    requires nonzero { 0 < length (pending_in image.old) }
    ensures value { result ≡ (taken image.old (failing (visit (sub ⊑ sup) (store_of image.old)) failure)).says }
    ensures image_after { image.new ≡ (taken image.old (failing (visit (sub ⊑ sup) (store_of image.old)) failure)).words }
{
    room_for(image, 0)?;
    writes::push::<Visited>(image, &[sub, sup]);
    writes::end_question(image);
    fill_break(image, failure);
    Ok(Step::Failed(failure))
}

// Goes on with consequences that need nothing made.
fn follow(image: &mut [u32], sub: u32, sup: u32, pairs: Pairs) -> Result<Step, Refusal>
    requires t { T (well_formed image.old) }
    requires nonzero { 0 < length (pending_in image.old) }
    requires pairs_right { PairsRight (fields_in image.old) pairs }
    ensures value { result ≡ (taken image.old (goes (visit (sub ⊑ sup) (store_of image.old)) (pairs_in (fields_in image.old) pairs))).says }
    ensures image_after { image.new ≡ (taken image.old (goes (visit (sub ⊑ sup) (store_of image.old)) (pairs_in (fields_in image.old) pairs))).words }
{
    room_for(image, consequences::count_of(pairs))?;
    advance(image, sub, sup);
    consequences::put_pairs(image, pairs);
    writes::end_if_done(image);
    Ok(Step::Went)
}

// Makes sup or the negation of d, entry by entry, as far as there is room.
fn make_target(image: &mut [u32], sup: u32, d: u32) -> Option<u32>
    requires negatable { Negatable image.old d }
    requires good { Good (store_of image.old) }
    requires shallow { Shallow (entries_of image.old) }
    requires sup_in_bounds { sup < length (entries_of image.old) }
    ensures { TargetIn (table image.old) sup d result image.new }
{
    let n = type_table::negate(image, d)?;
    if disjoint::union_contains_member(image, sup, n) {
        return Some(sup);
    }
    let number = image::records::<Entries>(image);
    if image::room::<Entries>(image) <= number {
        return None;
    }
    let spread = 1
        + image::word::<Entries>(image, sup, image::format::SPREAD_WORD)
        + image::word::<Entries>(image, n, image::format::SPREAD_WORD);
    writes::push_entry(image, image::format::UNION, sup, n, 0, 0, spread);
    Some(number)
}

// Whether an entry from number old on spreads too far.
fn is_deep(image: &[u32], old: u32) -> bool
    requires laid { Laid image.now }
    requires in_bounds { old ≤ length (entries_of image.now) }
    requires shallow { Shallow (take old (entries_of image.now)) }
    ensures { result ≡ too_deep (entries_of image.now) }
{
    for i in old..image::records::<Entries>(image) {
        if image::format::SPREAD_MOST
            < image::word::<Entries>(image, i, image::format::SPREAD_WORD)
        {
            return true;
        }
    }
    false
}

// Goes on with one consequence, entries from number old on made for it: undoes them where the step lacks room or goes too deep.
fn settle(
    image: &mut [u32],
    old: u32,
    sub: u32,
    sup: u32,
    c: u32,
    target: u32,
) -> Result<Step, Refusal>
    requires shown { Shown image.old }
    requires nonzero { 0 < length (pending_in image.old) }
    requires in_bounds { old ≤ length (entries_of image.old) }
    requires shallow { Shallow (take old (entries_of image.old)) }
    ensures value { result ≡ (settled image.old old (sub ⊑ sup) (c ⊑ target)).says }
    ensures image_after { image.new ≡ (settled image.old old (sub ⊑ sup) (c ⊑ target)).words }
{
    if image::room::<Visited>(image) <= image::records::<Visited>(image) {
        type_table::undo(image, old);
        return Err(Refusal::NoRoom(image::format::VISITED));
    }
    if is_deep(image, old) {
        type_table::undo(image, old);
        return Err(Refusal::TooDeep);
    }
    advance(image, sub, sup);
    writes::push::<Pending>(image, &[c, target]);
    writes::end_if_done(image);
    Ok(Step::Went)
}

// An inter's chosen side c, under sup or the negation of the other side d.
fn follow_isolated(image: &mut [u32], sub: u32, sup: u32, c: u32, d: u32) -> Result<Step, Refusal>
    requires t { T (well_formed image.old) }
    requires nonzero { 0 < length (pending_in image.old) }
    requires sup_in_bounds { sup < length (entries_of image.old) }
    requires d_in_bounds { d < length (entries_of image.old) }
    ensures value { result ≡ (taken image.old (outcome_for (store_of image.old) (sub ⊑ sup) (Isolate c d))).says }
    ensures image_after { image.new ≡ (taken image.old (outcome_for (store_of image.old) (sub ⊑ sup) (Isolate c d))).words }
{
    let old = image::records::<Entries>(image);
    let Some(target) = make_target(image, sup, d) else {
        type_table::undo(image, old);
        return Err(Refusal::NoRoom(image::format::ENTRIES)); // however deep it would go
    };
    settle(image, old, sub, sup, c, target)
}

// The type f of the field `__functor`, under a lambda from sub to lambda(param, body).
fn follow_functor(
    image: &mut [u32],
    sub: u32,
    sup: u32,
    f: u32,
    param: u32,
    body: u32,
) -> Result<Step, Refusal>
    requires t { T (well_formed image.old) }
    requires nonzero { 0 < length (pending_in image.old) }
    ensures value { result ≡ (taken image.old (outcome_for (store_of image.old) (sub ⊑ sup) (Functor f param body))).says }
    ensures image_after { image.new ≡ (taken image.old (outcome_for (store_of image.old) (sub ⊑ sup) (Functor f param body))).words }
{
    let old = image::records::<Entries>(image);
    let needed = 2;
    if image::room::<Entries>(image) - old < needed {
        return Err(Refusal::NoRoom(image::format::ENTRIES));
    }
    writes::push_entry(image, image::format::LAMBDA, param, body, 0, 0, 1);
    writes::push_entry(image, image::format::LAMBDA, sub, old, 0, 0, 1);
    settle(image, old, sub, sup, f, old + 1)
}

// Whether there is room for a bound, unless it repeats one, and for the rest of the step.
fn room_for_bound(image: &[u32], repeated: bool, more: u32) -> Result<(), Refusal>
    requires t { T (well_formed image.now) }
    requires nonzero { 0 < length (pending_in image.now) }
    ensures { RoomForBound image.now repeated more result }
{
    if repeated {
        return room_for(image, more);
    }
    if image::room::<Bounds>(image) <= image::records::<Bounds>(image) {
        return Err(Refusal::NoRoom(image::format::BOUNDS));
    }
    room_for(image, more)
}

// Adds a bound, unless it repeats one.
fn add_bound(image: &mut [u32], repeated: bool, v: u32, side: u32, b: u32)
    requires shown { Shown image.old }
    requires repeated_value { repeated ≡ repeats (bounds_in (bounds_all image.old) v side) b }
    requires image_len_bound { length (add_bound v side b (bounds_all image.old)) ≤ (store_of image.old).capacities.bounds }
    ensures { Shows image.new (bounds_to image.old (add_bound v side b (bounds_all image.old))) }
{
    if !repeated {
        writes::push::<Bounds>(image, &[v, side, b]);
    }
}

// Marks b, among the upper bounds of v, if it is a variable and v is marked.
fn pass_mark(image: &mut [u32], v: u32, side: u32, b: u32)
    requires shown { Shown image.old }
    requires v_in_bounds { v < length (entries_of image.old) }
    requires b_in_bounds { b < length (entries_of image.old) }
    ensures { Shows image.new (entries_to image.old (pass_mark v side b (entries_of image.old))) }
{
    if side != image::format::UPPER {
        return;
    }
    if image::word::<Entries>(image, b, image::format::KIND_WORD) != image::format::VARIABLE {
        return;
    }
    if image::says_mark(image::word::<Entries>(image, v, image::format::FLAGS_WORD)) {
        writes::put_mark(image, b);
    }
}

// Goes on with b among the bounds of v on a side, and the pairs of b with v's bounds on the other.
fn join_bounds(
    image: &mut [u32],
    sub: u32,
    sup: u32,
    v: u32,
    side: u32,
    b: u32,
) -> Result<Step, Refusal>
    requires t { T (well_formed image.old) }
    requires nonzero { 0 < length (pending_in image.old) }
    requires v_in_bounds { v < length (entries_of image.old) }
    requires b_in_bounds { b < length (entries_of image.old) }
    requires side_le_upper { side ≤ upper }
    ensures value { result ≡ (taken image.old (outcome_of (visit (sub ⊑ sup) (store_of image.old)) (sub ⊑ sup) (join_bounds (graph_in image.old) v side b))).says }
    ensures image_after { image.new ≡ (taken image.old (outcome_of (visit (sub ⊑ sup) (store_of image.old)) (sub ⊑ sup) (join_bounds (graph_in image.old) v side b))).words }
{
    let other = image::format::UPPER - side;
    let n = image::records::<Bounds>(image);
    let repeated = storage::repeats_bound(image, n, v, side, b);
    let more = storage::count_bounds(image, n, v, other);
    room_for_bound(image, repeated, more)?;
    add_bound(image, repeated, v, side, b);
    pass_mark(image, v, side, b);
    advance(image, sub, sup);
    consequences::put_bound_pairs(image, v, other, b);
    writes::end_if_done(image);
    Ok(Step::Went)
}

// Applies what the pair comes to.
fn apply(image: &mut [u32], sub: u32, sup: u32, next: Next) -> Result<Step, Refusal>
    requires t { T (well_formed image.old) }
    requires nonzero { 0 < length (pending_in image.old) }
    requires sub_in_bounds { sub < length (entries_of image.old) }
    requires sup_in_bounds { sup < length (entries_of image.old) }
    requires applicable { Applicable (graph_in image.old) next }
    ensures value { result ≡ (taken image.old (outcome_for (store_of image.old) (sub ⊑ sup) next)).says }
    ensures image_after { image.new ≡ (taken image.old (outcome_for (store_of image.old) (sub ⊑ sup) next)).words }
{
    match next {
        Next::Mismatch => fail(image, sub, sup, Failure::Mismatch { sub, sup }),
        Next::Missing(name) => fail(image, sub, sup, Failure::MissingField { sub, sup, name }),
        Next::Follow(pairs) => follow(image, sub, sup, pairs),
        Next::Isolate { chosen, other } => follow_isolated(image, sub, sup, chosen, other),
        Next::Functor { field, param, body } => follow_functor(image, sub, sup, field, param, body),
        Next::Upper => join_bounds(image, sub, sup, sub, image::format::UPPER, sup),
        Next::Lower => join_bounds(image, sub, sup, sup, image::format::LOWER, sub),
    }
}

// Takes one step of a question.
pub fn take_step(image: &mut [u32]) -> Result<Step, Refusal>
    requires t { T (well_formed image.old) }
    requires nonzero { 0 < length (pending_in image.old) }
    ensures value { result ≡ (taken image.old (rule (store_of image.old) (last_pair image.old))).says }
    ensures image_after { image.new ≡ (taken image.old (rule (store_of image.old) (last_pair image.old))).words }
{
    let last = image::records::<Pending>(image) - 1;
    let sub = image::word::<Pending>(image, last, image::format::PENDING_SUB_WORD);
    let sup = image::word::<Pending>(image, last, image::format::PENDING_SUP_WORD);
    if sub == sup {
        skip(image);
        return Ok(Step::Went);
    }
    if image::visited_has(image, sub, sup) {
        skip(image);
        return Ok(Step::Went);
    }
    let next = constrain::constrain(image, sub, sup);
    apply(image, sub, sup, next)
}
