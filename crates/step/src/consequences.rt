// The consequences of a step, put on pending last first.
ghost use Rattle.std.specs.Prelude.{◌≡◌, [], ◌∷◌, ◌++◌, reverse, map, ◌+◌, ◌≤◌, ◌<◌, length};
ghost use Rattle.model.specs.Image.{table};
ghost use Rattle.model.specs.Making.{bounds_in};
ghost use Rattle.model.specs.Rules.{bound_pair};
ghost use Rattle.image.specs.Shown.{store_of, fields_in, bounds_all, pending_in, pending_to};
ghost use Rattle.disjoint.specs.Fields.{Inside};
ghost use Rattle.constrain.specs.Fields.{field_pairs, dynamic_pairs};
ghost use Rattle.constrain.specs.Next.{pairs_in, PairsRight};
ghost use Rattle.step.specs.Taken.{Midway};
ghost use Rattle.step.specs.Put.{field_pair, count_in};

use constrain::{FieldAsk, Pairs};
use image::{Bounds, Fields, Pending};
use model::Attrset;

// Puts what field record j asks of a on pending, if it asks for a pair.
fn put_field_pair(image: &mut [u32], a: Attrset, j: u32)
    requires midway { Midway image.old (table image.old) }
    requires inside { Inside (fields_in image.old) a }
    requires j_in_bounds { j < length (fields_in image.old) }
    requires j_len_bound { length (pending_in image.old) + length (field_pair (fields_in image.old) a j) ≤ (store_of image.old).capacities.pending }
    ensures { Midway image.new (pending_to image.old (pending_in image.old ++ field_pair (fields_in image.old) a j)) }
{
    let ask = constrain::asks(image, a, j);
    if let FieldAsk::Under(x) = ask {
        let entry = image::word::<Fields>(image, j, image::format::ENTRY_WORD);
        writes::push::<Pending>(image, &[x, entry]);
    }
}

// Puts the pair of the dynamic types on pending, if both have one.
fn put_dynamic_pair(image: &mut [u32], a: Option<u32>, b: Option<u32>)
    requires midway { Midway image.old (table image.old) }
    requires b_len_bound { length (pending_in image.old) + length (dynamic_pairs a b) ≤ (store_of image.old).capacities.pending }
    ensures { Midway image.new (pending_to image.old (pending_in image.old ++ dynamic_pairs a b)) }
{
    if let (Some(m), Some(n)) = (a, b) {
        writes::push::<Pending>(image, &[m, n]);
    }
}

// Puts the pairs of sup's fields and of the dynamic types on pending, last first.
fn put_field_pairs(image: &mut [u32], a: Attrset, b: Attrset)
    requires midway { Midway image.old (table image.old) }
    requires inside { Inside (fields_in image.old) a }
    requires inside_2 { Inside (fields_in image.old) b }
    requires b_len_bound { length (pending_in image.old) + length (field_pairs (fields_in image.old) a b) ≤ (store_of image.old).capacities.pending }
    ensures { Midway image.new (pending_to image.old (pending_in image.old ++ reverse (field_pairs (fields_in image.old) a b))) }
{
    put_dynamic_pair(image, a.dynamic, b.dynamic);
    let end = b.first + b.count;
    for j in (b.first..end).rev() {
        put_field_pair(image, a, j);
    }
}

// How many consequences there are.
pub fn count_of(pairs: Pairs) -> u32
    ensures { result ≡ count_in pairs }
{
    match pairs {
        Pairs::Nothing => 0,
        Pairs::One(_, _) => 1,
        Pairs::Two(_, _, _, _) => 2,
        Pairs::Fields(_, _, n) => n,
    }
}

// Puts the consequences on pending, last first.
pub fn put_pairs(image: &mut [u32], pairs: Pairs)
    requires midway { Midway image.old (table image.old) }
    requires pairs_right { PairsRight (fields_in image.old) pairs }
    requires pairs_len_bound { length (pending_in image.old) + length (pairs_in (fields_in image.old) pairs) ≤ (store_of image.old).capacities.pending }
    ensures { Midway image.new (pending_to image.old (pending_in image.old ++ reverse (pairs_in (fields_in image.old) pairs))) }
{
    match pairs {
        Pairs::Nothing => {}
        Pairs::One(a, b) => writes::push::<Pending>(image, &[a, b]),
        Pairs::Two(a, b, c, d) => {
            writes::push::<Pending>(image, &[c, d]);
            writes::push::<Pending>(image, &[a, b])
        }
        Pairs::Fields(a, b, _) => put_field_pairs(image, a, b),
    }
}

// Puts the pair of a bound x, of that side, and b.
fn put_bound_pair(image: &mut [u32], side: u32, x: u32, b: u32)
    requires midway { Midway image.old (table image.old) }
    requires image_len_bound { length (pending_in image.old) < (store_of image.old).capacities.pending }
    ensures { Midway image.new (pending_to image.old (pending_in image.old ++ (bound_pair side b x ∷ []))) }
{
    if side == image::format::LOWER {
        writes::push::<Pending>(image, &[x, b]);
    } else {
        writes::push::<Pending>(image, &[b, x]);
    }
}

// Puts the pairs of v's bounds on a side and b on pending, last first.
pub fn put_bound_pairs(image: &mut [u32], v: u32, side: u32, b: u32)
    requires midway { Midway image.old (table image.old) }
    requires side_len_bound { length (pending_in image.old) + length (bounds_in (bounds_all image.old) v side) ≤ (store_of image.old).capacities.pending }
    ensures { Midway image.new (pending_to image.old (pending_in image.old ++ reverse (map (bound_pair side b) (bounds_in (bounds_all image.old) v side)))) }
{
    let n = image::records::<Bounds>(image);
    for i in (0..n).rev() {
        if storage::belongs(image, i, v, side) {
            let x = image::word::<Bounds>(image, i, image::format::BOUND_WORD);
            put_bound_pair(image, side, x, b);
        }
    }
}
