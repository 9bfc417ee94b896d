// Starting an image: every word zeroed, and the header written.

#![tactic(auto)]

ghost use Rattle.std.specs.Prelude.{◌≡◌, [], ◌∷◌, ◌+◌, ◌≤◌, ◌<◌, length, set, replicate, T, eqb, leb};
ghost use Rattle.std.proofs.lemmas.List.Edits.{sets};
ghost use Rattle.model.specs.Lists.{all_of};
ghost use Rattle.model.specs.Format.{regions, newest, header_words, format_at, format_word, names_at, functor_at, offset_at, count_at, names_most};
ghost use Rattle.model.specs.Image.{size_of};
ghost use Rattle.model.specs.Calls.{all_small, start as start_of};
ghost use Rattle.model.specs.Told.{told_reply};
ghost use Rattle.image.specs.Stores.{capacities_of, headed_from};

use image::Capacities;
use model::Refusal;

// Whether no capacity is over its maximum. Here and below, `sizes` are the capacities, in the regions' order.
fn all_small(sizes: &[u32]) -> bool
    requires { length sizes.now ≡ length (regions newest) }
    ensures { result ≡ all_small (regions newest) sizes.now }
{
    let mut ok = true;
    for k in 0..image::format::REGIONS {
        ok = ok & (sizes[k] <= image::format::MOSTS[k]);
    }
    ok
}

// How many words an image with these capacities has.
fn size_of(sizes: &[u32]) -> usize
    requires sizes_len { length sizes.now ≡ length (regions newest) }
    requires t { T (all_small (regions newest) sizes.now) }
    ensures { result ≡ header_words + size_of (regions newest) sizes.now }
{
    let mut at: usize = image::format::HEADER_WORDS;
    for k in 0..image::format::REGIONS {
        at = at + image::format::WIDTHS[k] * image::wide(sizes[k]);
    }
    at
}

// Zeroes every word.
fn clear(image: &mut [u32])
    ensures { image.new ≡ replicate (length image.old) 0 }
{
    image.fill(0);
}

// Writes the format, the name count and the functor word.
fn put_front(image: &mut [u32], names: u32, functor: u32)
    requires { header_words ≤ length image.old }
    ensures { image.new ≡ set (set (set image.old format_at format_word) names_at names) functor_at functor }
{
    image[image::format::FORMAT_AT] = image::format::FORMAT;
    image[image::format::NAMES_AT] = names;
    image[image::format::FUNCTOR_AT] = functor;
}

// Writes region k's words of the header: its offset, its capacity, and the count 0.
fn put_region(image: &mut [u32], k: usize, offset: u32, capacity: u32)
    requires { count_at k < length image.old }
    ensures { image.new ≡ sets image.old (offset_at k) (offset ∷ capacity ∷ 0 ∷ []) }
{
    let row = [offset, capacity, 0];
    let at = image::format::OFFSET_AT;
    writes::put_row(&mut image[at..], image::format::REGION_STEP * k, &row);
}

// Writes the header of an empty image over zeroes.
fn put_header(image: &mut [u32], names: u32, functor: u32, sizes: &[u32])
    requires header_words_in_bounds { header_words ≤ length image.old }
    requires sizes_len { length sizes.now ≡ length (regions newest) }
    requires t { T (all_small (regions newest) sizes.now) }
    ensures { image.new ≡ headed_from 1 header_words (regions newest) sizes.now (set (set (set image.old format_at format_word) names_at names) functor_at functor) }
{
    put_front(image, names, functor);
    let mut at: usize = image::format::HEADER_WORDS;
    for k in 0..image::format::REGIONS {
        put_region(image, k + 1, at as u32, sizes[k]);
        at = at + image::format::WIDTHS[k] * image::wide(sizes[k]);
    }
}

// Whether an image can be started so.
fn capacities_right(image: &[u32], names: u32, functor: u32, sizes: &[u32]) -> bool
    requires { length sizes.now ≡ length (regions newest) }
    ensures { result ≡ all_of (all_small (regions newest) sizes.now ∷ eqb (header_words + size_of (regions newest) sizes.now) (length image.now) ∷ leb names names_most ∷ leb functor names ∷ []) }
{
    if !all_small(sizes) {
        return false;
    }
    (size_of(sizes) == image.len()) & (names <= image::format::NAMES_MOST) & (functor <= names)
}

// Starts an image: idle, at level 0, with nothing in its regions. A refusal leaves every word as found.
pub fn start(
    image: &mut [u32],
    names: u32,
    functor: u32,
    capacities: Capacities,
) -> Result<(), Refusal>
    ensures result_value { told_reply result ≡ (start_of names functor (capacities_of capacities) image.old).says }
    ensures image_after { image.new ≡ (start_of names functor (capacities_of capacities) image.old).words }
{
    let sizes = [
        capacities.entries,
        capacities.fields,
        capacities.bounds,
        capacities.visited,
        capacities.pending,
        capacities.equals,
    ];
    if !capacities_right(image, names, functor, &sizes) {
        return Err(Refusal::BadCapacity);
    }
    clear(image);
    put_header(image, names, functor, &sizes);
    Ok(())
}
