// Tests on entries that the rules use: fields by name, disjointness, compatibility, and the three searches.
// All read the image and write nothing.

#![tactic(auto)]

ghost use Rattle.std.specs.Prelude.{◌≡◌, ◌+◌, ◌<◌, ◌≤◌, length};
ghost use Rattle.model.specs.Table.{entry_at};
ghost use Rattle.model.specs.Shapes.{has_functor, primitives_disjoint, lacks_field, under_number, holds_variable, union_member, disjoint_from_sup};
ghost use Rattle.model.specs.Shapes.{disjoint as sharesNone, compatible as couldBeUnder};
ghost use Rattle.laws.specs.Good.{Good};
ghost use Rattle.image.specs.Laid.{Laid};
ghost use Rattle.image.specs.Shown.{store_of, graph_in, entries_of, fields_in};
ghost use Rattle.image.specs.Records.{field_at};
ghost use Rattle.disjoint.specs.Fields.{Inside, fields_held, number_named, functor_number, functor_record};
ghost use Rattle.disjoint.specs.Shapes.{shape_of, ShapeInside, lacks_some, closed_lacks_in, attrsets_disjoint_in, callable, shapes_disjoint};

use image::{Entries, Fields};
use model::{Attrset, Entry};

// A type's top-level constructor, as far as disjointness asks.
#[derive(Clone, Copy)]
pub enum Shape {
    Primitive(u32),
    AttrSet(Attrset),
    List,
    Lambda,
    // a variable, named, neg, inter or union: its shape tells nothing
    Opaque,
}

// The number of the field record with that name, among the records first to first + count - 1.
pub fn field_named(image: &[u32], first: u32, count: u32, name: u32) -> Option<u32>
    requires laid { Laid image.now }
    requires count_in_bounds { first + count ≤ length (fields_in image.now) }
    ensures { result ≡ number_named (fields_in image.now) first count name }
{
    let end = first + count;
    for i in first..end {
        if image::word::<Fields>(image, i, image::format::NAME_WORD) == name {
            return Some(i);
        }
    }
    None
}

// The record of the field `__functor` among these.
fn functor_among(image: &[u32], first: u32, count: u32) -> Option<u32>
    requires laid { Laid image.now }
    requires count_in_bounds { first + count ≤ length (fields_in image.now) }
    ensures { result ≡ functor_number (fields_in image.now) first count (store_of image.now).functor }
{
    let word = image::functor(image);
    if word == 0 {
        return None;
    }
    field_named(image, first, count, word - 1)
}

// The record of the field `__functor` of entry n, if it is an attrset that has one.
pub fn functor_of(image: &[u32], n: u32) -> Option<u32>
    requires laid { Laid image.now }
    requires good { Good (store_of image.now) }
    requires n_in_bounds { n < length (entries_of image.now) }
    ensures { result ≡ functor_record (graph_in image.now) (entry_at (entries_of image.now) n) }
{
    let e = image::entry(image, n);
    let Entry::AttrSet(a) = e else {
        return None;
    };
    functor_among(image, a.first, a.count)
}

// Whether entry n is an attrset with a field `__functor`.
pub fn has_functor(image: &[u32], n: u32) -> bool
    requires laid { Laid image.now }
    requires good { Good (store_of image.now) }
    requires n_in_bounds { n < length (entries_of image.now) }
    ensures { result ≡ has_functor (graph_in image.now) (entry_at (entries_of image.now) n) }
{
    functor_of(image, n).is_some()
}

// Whether the attrset has a field `__functor`, which makes it callable.
fn is_callable(image: &[u32], a: Attrset) -> bool
    requires laid { Laid image.now }
    requires inside { Inside (fields_in image.now) a }
    ensures { result ≡ callable (graph_in image.now) a }
{
    functor_among(image, a.first, a.count).is_some()
}

// Whether field record j is not optional, and no field of a has its name.
#[tactic(auto, using(crate::proofs::Shapes::optional_so, crate::proofs::Shapes::required_so))]
fn lacks_field(image: &[u32], a: Attrset, j: u32) -> bool
    requires laid { Laid image.now }
    requires inside { Inside (fields_in image.now) a }
    requires j_in_bounds { j < length (fields_in image.now) }
    ensures { result ≡ lacks_field (fields_held (fields_in image.now) a) (field_at (fields_in image.now) j) }
{
    if image::word::<Fields>(image, j, image::format::OPTIONAL_WORD) != 0 {
        return false;
    }
    let name = image::word::<Fields>(image, j, image::format::NAME_WORD);
    !field_named(image, a.first, a.count, name).is_some()
}

// Whether some field of b is not optional and no field of a.
fn lacks_some(image: &[u32], a: Attrset, b: Attrset) -> bool
    requires laid { Laid image.now }
    requires inside { Inside (fields_in image.now) a }
    requires inside_2 { Inside (fields_in image.now) b }
    ensures { result ≡ lacks_some (fields_in image.now) a b }
{
    let end = b.first + b.count;
    for j in b.first..end {
        if lacks_field(image, a, j) {
            return true;
        }
    }
    false
}

// Whether a is closed, and lacks a field that b requires.
#[tactic(auto, using(crate::proofs::Shapes::open_lacks, crate::proofs::Shapes::shut_so))]
fn closed_lacks(image: &[u32], a: Attrset, b: Attrset) -> bool
    requires laid { Laid image.now }
    requires inside { Inside (fields_in image.now) a }
    requires inside_2 { Inside (fields_in image.now) b }
    ensures { result ≡ closed_lacks_in (fields_in image.now) a b }
{
    if a.is_open {
        return false;
    }
    lacks_some(image, a, b)
}

// Whether one is closed, and lacks a field that the other requires.
fn attrsets_disjoint(image: &[u32], a: Attrset, b: Attrset) -> bool
    requires laid { Laid image.now }
    requires inside { Inside (fields_in image.now) a }
    requires inside_2 { Inside (fields_in image.now) b }
    ensures { result ≡ attrsets_disjoint_in (fields_in image.now) a b }
{
    if closed_lacks(image, a, b) {
        return true;
    }
    closed_lacks(image, b, a)
}

// Whether p is a proper subtype of q: Int or Float under Number.
fn is_subtype_of(p: u32, q: u32) -> bool
    ensures { result ≡ under_number p q }
{
    if q == image::format::NUMBER {
        if p == image::format::INT {
            return true;
        }
        return p == image::format::FLOAT;
    }
    false
}

// Whether two primitives are unequal, and neither is a subtype of the other.
fn primitives_disjoint(p: u32, q: u32) -> bool
    ensures { result ≡ primitives_disjoint p q }
{
    if p == q {
        return false;
    }
    if is_subtype_of(p, q) {
        return false;
    }
    !is_subtype_of(q, p)
}

// The shape of an entry that was read out.
fn shape_of(e: Entry) -> Shape
    ensures { result ≡ shape_of e }
{
    match e {
        Entry::Primitive(p) => Shape::Primitive(p),
        Entry::List(_) => Shape::List,
        Entry::Lambda { param: _, body: _ } => Shape::Lambda,
        Entry::AttrSet(a) => Shape::AttrSet(a),
        Entry::Variable { level: _ } => Shape::Opaque,
        Entry::Named { inner: _, label: _ } => Shape::Opaque,
        Entry::Neg(_) => Shape::Opaque,
        Entry::Inter(_, _) => Shape::Opaque,
        Entry::Union(_, _) => Shape::Opaque,
    }
}

// Whether two shapes share no value: different constructors do not, but a callable attrset may be a lambda.
fn are_shapes_disjoint(image: &[u32], a: Shape, b: Shape) -> bool
    requires laid { Laid image.now }
    requires shape_inside { ShapeInside (fields_in image.now) a }
    requires shape_inside_2 { ShapeInside (fields_in image.now) b }
    ensures { result ≡ shapes_disjoint (graph_in image.now) a b }
{
    match a {
        Shape::Primitive(p) => match b {
            Shape::Primitive(q) => primitives_disjoint(p, q),
            Shape::AttrSet(_) => true,
            Shape::List => true,
            Shape::Lambda => true,
            Shape::Opaque => false,
        },
        Shape::AttrSet(x) => match b {
            Shape::Primitive(_) => true,
            Shape::AttrSet(y) => attrsets_disjoint(image, x, y),
            Shape::List => true,
            Shape::Lambda => !is_callable(image, x),
            Shape::Opaque => false,
        },
        Shape::List => match b {
            Shape::Primitive(_) => true,
            Shape::AttrSet(_) => true,
            Shape::List => false,
            Shape::Lambda => true,
            Shape::Opaque => false,
        },
        Shape::Lambda => match b {
            Shape::Primitive(_) => true,
            Shape::AttrSet(y) => !is_callable(image, y),
            Shape::List => true,
            Shape::Lambda => false,
            Shape::Opaque => false,
        },
        Shape::Opaque => false,
    }
}

// Whether entries a and b share no value.
pub fn are_types_disjoint(image: &[u32], a: u32, b: u32) -> bool
    requires laid { Laid image.now }
    requires good { Good (store_of image.now) }
    requires a_in_bounds { a < length (entries_of image.now) }
    requires b_in_bounds { b < length (entries_of image.now) }
    ensures { result ≡ sharesNone (graph_in image.now) (entry_at (entries_of image.now) a) (entry_at (entries_of image.now) b) }
{
    let sub = shape_of(image::entry(image, a));
    let sup = shape_of(image::entry(image, b));
    are_shapes_disjoint(image, sub, sup)
}

// Whether entry sub could be under entry target: it has the same constructor (so Int under Number), or target is named, or
// target is a lambda and sub has a field `__functor`.
pub fn is_concrete_compatible(image: &[u32], sub: u32, target: u32) -> bool
    requires laid { Laid image.now }
    requires good { Good (store_of image.now) }
    requires sub_in_bounds { sub < length (entries_of image.now) }
    requires target_in_bounds { target < length (entries_of image.now) }
    ensures { result ≡ couldBeUnder (graph_in image.now) (entry_at (entries_of image.now) sub) (entry_at (entries_of image.now) target) }
{
    let kind = image::word::<Entries>(image, target, image::format::KIND_WORD);
    if image::word::<Entries>(image, sub, image::format::KIND_WORD) == kind {
        return true;
    }
    if kind == image::format::NAMED {
        return true;
    }
    if kind == image::format::LAMBDA {
        return has_functor(image, sub);
    }
    false
}

// Whether entry n is a variable, or leads to one through inter and named.
pub fn inter_contains_var(image: &[u32], n: u32) -> bool
    requires laid { Laid image.now }
    requires good { Good (store_of image.now) }
    requires n_in_bounds { n < length (entries_of image.now) }
    ensures { result ≡ holds_variable (entries_of image.now) n }
{
    let e = image::entry(image, n);
    match e {
        Entry::Variable { level: _ } => true,
        Entry::Inter(x, y) => {
            if inter_contains_var(image, x) {
                true
            } else {
                inter_contains_var(image, y)
            }
        }
        Entry::Named { inner, label: _ } => inter_contains_var(image, inner),
        _ => false,
    }
}

// Whether target is entry n itself, or a member of it through unions and named.
pub fn union_contains_member(image: &[u32], n: u32, target: u32) -> bool
    requires laid { Laid image.now }
    requires good { Good (store_of image.now) }
    requires n_in_bounds { n < length (entries_of image.now) }
    ensures { result ≡ union_member (entries_of image.now) target n }
{
    if n == target {
        return true;
    }
    let e = image::entry(image, n);
    match e {
        Entry::Union(x, y) => {
            if union_contains_member(image, x, target) {
                true
            } else {
                union_contains_member(image, y, target)
            }
        }
        Entry::Named { inner, label: _ } => union_contains_member(image, inner, target),
        _ => false,
    }
}

// Whether entry n, or a member of it through inter, is disjoint from entry sup.
pub fn is_disjoint_from_sup(image: &[u32], n: u32, sup: u32) -> bool
    requires laid { Laid image.now }
    requires good { Good (store_of image.now) }
    requires n_in_bounds { n < length (entries_of image.now) }
    requires sup_in_bounds { sup < length (entries_of image.now) }
    ensures { result ≡ disjoint_from_sup (graph_in image.now) (entry_at (entries_of image.now) sup) n }
{
    let e = image::entry(image, n);
    match e {
        Entry::Inter(x, y) => {
            if is_disjoint_from_sup(image, x, sup) {
                true
            } else {
                is_disjoint_from_sup(image, y, sup)
            }
        }
        _ => are_types_disjoint(image, n, sup),
    }
}
