// The calls that make entries, mark, put bounds and set levels, in a well formed image: each refuses in document 01's order, leaves every
// word as found where it refuses, and is what the model's turn of that call does. Crate `sheafwinch` has the calls.

#![tactic(auto)]

ghost use Rattle.std.specs.Prelude.{◌≡◌, ◌≤◌, T};
ghost use Rattle.model.specs.Format.{neg};
ghost use Rattle.model.specs.Image.{table};
ghost use Rattle.model.specs.Formed.{well_formed};
ghost use Rattle.model.specs.Calls.{response_of, variable_turn, primitive_turn, one_turn, two_turn, neg_turn, attrset_turn, dynamic_known, mark_turn, put_bound_turn, enter_turn, exit_turn, set_level_turn};
ghost use Rattle.model.specs.Told.{told_made, told_reply};
ghost use Rattle.image.specs.Shown.{entries_of};

use image::Entries;
use model::Refusal;

// Makes a variable at the current level.
pub fn variable_in(image: &mut [u32]) -> Result<u32, Refusal>
    requires { T (well_formed image.old) }
    ensures result_value { told_made result ≡ (response_of image.old (variable_turn (table image.old))).says }
    ensures image_after { image.new ≡ (response_of image.old (variable_turn (table image.old))).words }
{
    if image::is_asked(image) {
        return Err(Refusal::Busy);
    }
    let level = image::level(image);
    type_table::make(image, image::format::VARIABLE, level, 0)
}

// Makes a primitive, 0 to 7.
pub fn primitive_in(image: &mut [u32], which: u32) -> Result<u32, Refusal>
    requires { T (well_formed image.old) }
    ensures result_value { told_made result ≡ (response_of image.old (primitive_turn which (table image.old))).says }
    ensures image_after { image.new ≡ (response_of image.old (primitive_turn which (table image.old))).words }
{
    if image::is_asked(image) {
        return Err(Refusal::Busy);
    }
    if image::format::NUMBER < which {
        return Err(Refusal::BadNumber);
    }
    type_table::make(image, image::format::PRIMITIVE, which, 0)
}

// Makes an entry of one component, and a word that is none: a list, or named.
pub fn one_in(image: &mut [u32], kind: u32, x: u32, label: u32) -> Result<u32, Refusal>
    requires t { T (well_formed image.old) }
    requires kind_le_neg { kind ≤ neg }
    ensures result_value { told_made result ≡ (response_of image.old (one_turn kind x label (table image.old))).says }
    ensures image_after { image.new ≡ (response_of image.old (one_turn kind x label (table image.old))).words }
{
    if image::is_asked(image) {
        return Err(Refusal::Busy);
    }
    if image::records::<Entries>(image) <= x {
        return Err(Refusal::BadNumber);
    }
    type_table::make(image, kind, x, label)
}

// Makes an entry of two components: a lambda, an inter or a union.
pub fn two_in(image: &mut [u32], kind: u32, x: u32, y: u32) -> Result<u32, Refusal>
    requires { T (well_formed image.old) }
    ensures result_value { told_made result ≡ (response_of image.old (two_turn kind x y (table image.old))).says }
    ensures image_after { image.new ≡ (response_of image.old (two_turn kind x y (table image.old))).words }
{
    if image::is_asked(image) {
        return Err(Refusal::Busy);
    }
    if image::records::<Entries>(image) <= x {
        return Err(Refusal::BadNumber);
    }
    if image::records::<Entries>(image) <= y {
        return Err(Refusal::BadNumber);
    }
    type_table::make(image, kind, x, y)
}

// Makes the negation of an entry, or answers the one that stands there.
pub fn neg_in(image: &mut [u32], n: u32) -> Result<u32, Refusal>
    requires { T (well_formed image.old) }
    ensures result_value { told_made result ≡ (response_of image.old (neg_turn n (table image.old))).says }
    ensures image_after { image.new ≡ (response_of image.old (neg_turn n (table image.old))).words }
{
    if image::is_asked(image) {
        return Err(Refusal::Busy);
    }
    if image::records::<Entries>(image) <= n {
        return Err(Refusal::BadNumber);
    }
    type_table::make_neg(image, n)
}

// Whether a dynamic type, where there is one, is an entry.
fn dynamic_known(image: &[u32], dynamic: Option<u32>) -> bool
    requires { T (well_formed image.now) }
    ensures { result ≡ dynamic_known (entries_of image.now) dynamic }
{
    match dynamic {
        None => true,
        Some(n) => n < image::records::<Entries>(image),
    }
}

// Makes an attrset with the fields of a list, triples of a name, an entry and optional.
pub fn attrset_in(
    image: &mut [u32],
    fields: &[u32],
    is_open: bool,
    dynamic: Option<u32>,
) -> Result<u32, Refusal>
    requires { T (well_formed image.old) }
    ensures result_value { told_made result ≡ (response_of image.old (attrset_turn fields.now is_open dynamic (table image.old))).says }
    ensures image_after { image.new ≡ (response_of image.old (attrset_turn fields.now is_open dynamic (table image.old))).words }
{
    if image::is_asked(image) {
        return Err(Refusal::Busy);
    }
    if !field_list::listed(image::name_count(image), fields) {
        return Err(Refusal::BadFields);
    }
    if !field_list::known(image::records::<Entries>(image), fields) {
        return Err(Refusal::BadNumber);
    }
    if !dynamic_known(image, dynamic) {
        return Err(Refusal::BadNumber);
    }
    type_table::make_attrset(image, fields, is_open, dynamic)
}

// Sets the default mark of an entry.
pub fn mark_in(image: &mut [u32], n: u32) -> Result<(), Refusal>
    requires { T (well_formed image.old) }
    ensures result_value { told_reply result ≡ (response_of image.old (mark_turn n (table image.old))).says }
    ensures image_after { image.new ≡ (response_of image.old (mark_turn n (table image.old))).words }
{
    if image::is_asked(image) {
        return Err(Refusal::Busy);
    }
    if image::records::<Entries>(image) <= n {
        return Err(Refusal::BadNumber);
    }
    storage::mark(image, n);
    Ok(())
}

// Puts a bound of a variable, on side 0 lower or 1 upper.
pub fn bound_in(image: &mut [u32], v: u32, side: u32, b: u32) -> Result<(), Refusal>
    requires { T (well_formed image.old) }
    ensures result_value { told_reply result ≡ (response_of image.old (put_bound_turn v side b (table image.old))).says }
    ensures image_after { image.new ≡ (response_of image.old (put_bound_turn v side b (table image.old))).words }
{
    if image::is_asked(image) {
        return Err(Refusal::Busy);
    }
    if image::records::<Entries>(image) <= v {
        return Err(Refusal::BadNumber);
    }
    if image::format::UPPER < side {
        return Err(Refusal::BadNumber);
    }
    if image::records::<Entries>(image) <= b {
        return Err(Refusal::BadNumber);
    }
    if image::word::<Entries>(image, v, image::format::KIND_WORD) != image::format::VARIABLE {
        return Err(Refusal::NotAVariable);
    }
    storage::put_bound(image, v, side, b)
}

// Enters a level.
pub fn enter_in(image: &mut [u32]) -> Result<(), Refusal>
    requires { T (well_formed image.old) }
    ensures result_value { told_reply result ≡ (response_of image.old (enter_turn (table image.old))).says }
    ensures image_after { image.new ≡ (response_of image.old (enter_turn (table image.old))).words }
{
    if image::is_asked(image) {
        return Err(Refusal::Busy);
    }
    storage::enter_level(image)
}

// Leaves a level.
pub fn exit_in(image: &mut [u32]) -> Result<(), Refusal>
    requires { T (well_formed image.old) }
    ensures result_value { told_reply result ≡ (response_of image.old (exit_turn (table image.old))).says }
    ensures image_after { image.new ≡ (response_of image.old (exit_turn (table image.old))).words }
{
    if image::is_asked(image) {
        return Err(Refusal::Busy);
    }
    storage::exit_level(image)
}

// Sets a variable's level.
pub fn level_in(image: &mut [u32], v: u32, level: u32) -> Result<(), Refusal>
    requires { T (well_formed image.old) }
    ensures result_value { told_reply result ≡ (response_of image.old (set_level_turn v level (table image.old))).says }
    ensures image_after { image.new ≡ (response_of image.old (set_level_turn v level (table image.old))).words }
{
    if image::is_asked(image) {
        return Err(Refusal::Busy);
    }
    if image::records::<Entries>(image) <= v {
        return Err(Refusal::BadNumber);
    }
    if image::word::<Entries>(image, v, image::format::KIND_WORD) != image::format::VARIABLE {
        return Err(Refusal::NotAVariable);
    }
    storage::set_var_level(image, v, level);
    Ok(())
}
