// The calls on an image. Each tests the image first, then hands it on to a core that requires it well formed, in crates `changes`,
// `questions` and `reads`. Its contract is the model's definition of that call: `perform` in crates/model/specs/Calls.antt. There is a
// function for each call, alike as they are: crate capi exports each to C, and bindings and docs have them by these names.

#![tactic(auto)]

ghost use Rattle.std.specs.Prelude.{◌≡◌};
ghost use Rattle.model.specs.Calls.{perform, makes_variable, makes_primitive, makes_list, makes_lambda, makes_attrset, makes_named, makes_neg, makes_inter, makes_union, marks, puts_bound, enters, exits, sets_level, under, both_ways, opens, works, abandons, reads_entry, reads_record, reads_disjoint};
ghost use Rattle.model.specs.Calls.{start as start_of};
ghost use Rattle.model.specs.Told.{told_made, told_reply, told_answer, told_opening, steps_of, told_entry_read, told_record, told_disjointness};
ghost use Rattle.image.specs.Stores.{capacities_of};

use model::{Entry, Instalment, Question, Record, Refusal};

// Starts an image in the lent words, whatever stood there: idle, level and counts 0.
pub fn start(
    image: &mut [u32],
    names: u32,
    functor: u32,
    capacities: image::Capacities,
) -> Result<(), Refusal>
    ensures result_value { told_reply result ≡ (start_of names functor (capacities_of capacities) image.old).says }
    ensures image_after { image.new ≡ (start_of names functor (capacities_of capacities) image.old).words }
{
    start::start(image, names, functor, capacities)
}

// Makes a variable at the current level.
pub fn make_variable(image: &mut [u32]) -> Result<u32, Refusal>
    ensures result_value { told_made result ≡ (perform makes_variable image.old).says }
    ensures image_after { image.new ≡ (perform makes_variable image.old).words }
{
    formed::admit(image)?;
    changes::variable_in(image)
}

// Makes a primitive, 0 to 7.
pub fn make_primitive(image: &mut [u32], which: u32) -> Result<u32, Refusal>
    ensures result_value { told_made result ≡ (perform (makes_primitive which) image.old).says }
    ensures image_after { image.new ≡ (perform (makes_primitive which) image.old).words }
{
    formed::admit(image)?;
    changes::primitive_in(image, which)
}

// Makes a list of an element.
pub fn make_list(image: &mut [u32], element: u32) -> Result<u32, Refusal>
    ensures result_value { told_made result ≡ (perform (makes_list element) image.old).says }
    ensures image_after { image.new ≡ (perform (makes_list element) image.old).words }
{
    formed::admit(image)?;
    changes::one_in(image, image::format::LIST, element, 0)
}

// Makes a named entry; the label is never tested.
pub fn make_named(image: &mut [u32], inner: u32, label: u32) -> Result<u32, Refusal>
    ensures result_value { told_made result ≡ (perform (makes_named inner label) image.old).says }
    ensures image_after { image.new ≡ (perform (makes_named inner label) image.old).words }
{
    formed::admit(image)?;
    changes::one_in(image, image::format::NAMED, inner, label)
}

// Makes a lambda.
pub fn make_lambda(image: &mut [u32], param: u32, body: u32) -> Result<u32, Refusal>
    ensures result_value { told_made result ≡ (perform (makes_lambda param body) image.old).says }
    ensures image_after { image.new ≡ (perform (makes_lambda param body) image.old).words }
{
    formed::admit(image)?;
    changes::two_in(image, image::format::LAMBDA, param, body)
}

// Makes an intersection.
pub fn make_inter(image: &mut [u32], left: u32, right: u32) -> Result<u32, Refusal>
    ensures result_value { told_made result ≡ (perform (makes_inter left right) image.old).says }
    ensures image_after { image.new ≡ (perform (makes_inter left right) image.old).words }
{
    formed::admit(image)?;
    changes::two_in(image, image::format::INTER, left, right)
}

// Makes a union.
pub fn make_union(image: &mut [u32], left: u32, right: u32) -> Result<u32, Refusal>
    ensures result_value { told_made result ≡ (perform (makes_union left right) image.old).says }
    ensures image_after { image.new ≡ (perform (makes_union left right) image.old).words }
{
    formed::admit(image)?;
    changes::two_in(image, image::format::UNION, left, right)
}

// Makes the negation of an entry, or answers the one that stands there.
pub fn make_neg(image: &mut [u32], n: u32) -> Result<u32, Refusal>
    ensures result_value { told_made result ≡ (perform (makes_neg n) image.old).says }
    ensures image_after { image.new ≡ (perform (makes_neg n) image.old).words }
{
    formed::admit(image)?;
    changes::neg_in(image, n)
}

// Makes an attrset with the fields of a list, triples of a name, an entry and optional.
pub fn make_attrset(
    image: &mut [u32],
    fields: &[u32],
    is_open: bool,
    dynamic: Option<u32>,
) -> Result<u32, Refusal>
    ensures result_value { told_made result ≡ (perform (makes_attrset fields.now is_open dynamic) image.old).says }
    ensures image_after { image.new ≡ (perform (makes_attrset fields.now is_open dynamic) image.old).words }
{
    formed::admit(image)?;
    changes::attrset_in(image, fields, is_open, dynamic)
}

// Sets the default mark of an entry.
pub fn mark(image: &mut [u32], n: u32) -> Result<(), Refusal>
    ensures result_value { told_reply result ≡ (perform (marks n) image.old).says }
    ensures image_after { image.new ≡ (perform (marks n) image.old).words }
{
    formed::admit(image)?;
    changes::mark_in(image, n)
}

// Puts a bound of a variable, on side 0 lower or 1 upper.
pub fn put_bound(image: &mut [u32], variable: u32, side: u32, bound: u32) -> Result<(), Refusal>
    ensures result_value { told_reply result ≡ (perform (puts_bound variable side bound) image.old).says }
    ensures image_after { image.new ≡ (perform (puts_bound variable side bound) image.old).words }
{
    formed::admit(image)?;
    changes::bound_in(image, variable, side, bound)
}

// Enters a level.
pub fn enter(image: &mut [u32]) -> Result<(), Refusal>
    ensures result_value { told_reply result ≡ (perform enters image.old).says }
    ensures image_after { image.new ≡ (perform enters image.old).words }
{
    formed::admit(image)?;
    changes::enter_in(image)
}

// Leaves a level.
pub fn exit(image: &mut [u32]) -> Result<(), Refusal>
    ensures result_value { told_reply result ≡ (perform exits image.old).says }
    ensures image_after { image.new ≡ (perform exits image.old).words }
{
    formed::admit(image)?;
    changes::exit_in(image)
}

// Sets a variable's level.
pub fn set_level(image: &mut [u32], variable: u32, level: u32) -> Result<(), Refusal>
    ensures result_value { told_reply result ≡ (perform (sets_level variable level) image.old).says }
    ensures image_after { image.new ≡ (perform (sets_level variable level) image.old).words }
{
    formed::admit(image)?;
    changes::level_in(image, variable, level)
}

// Opens the question whether sub fits under sup, and works it, at most so many steps; a held question is refused once a question in this
// table has failed. Refused at the opening, it does no step and leaves every word; else it is the first instalment, as work gives it.
pub fn open(
    image: &mut [u32],
    held: bool,
    sub: u32,
    sup: u32,
    budget: u32,
) -> Result<Instalment, Refusal>
    ensures result_value { told_opening result ≡ (perform (opens (under held sub sup) budget) image.old).says }
    ensures result_value_2 { steps_of result ≡ (perform (opens (under held sub sup) budget) image.old).steps }
    ensures image_after { image.new ≡ (perform (opens (under held sub sup) budget) image.old).words }
{
    let q = Question {
        held,
        equal: false,
        left: sub,
        right: sup,
    };
    opened(image, q, budget)
}

// Opens the question whether each of two entries fits under the other.
pub fn open_equal(
    image: &mut [u32],
    held: bool,
    left: u32,
    right: u32,
    budget: u32,
) -> Result<Instalment, Refusal>
    ensures result_value { told_opening result ≡ (perform (opens (both_ways held left right) budget) image.old).says }
    ensures result_value_2 { steps_of result ≡ (perform (opens (both_ways held left right) budget) image.old).steps }
    ensures image_after { image.new ≡ (perform (opens (both_ways held left right) budget) image.old).words }
{
    let q = Question {
        held,
        equal: true,
        left,
        right,
    };
    opened(image, q, budget)
}

// A question: the image is tested once, for both halves.
fn opened(image: &mut [u32], q: Question, budget: u32) -> Result<Instalment, Refusal>
    ensures result_value { told_opening result ≡ (perform (opens q budget) image.old).says }
    ensures result_value_2 { steps_of result ≡ (perform (opens q budget) image.old).steps }
    ensures image_after { image.new ≡ (perform (opens q budget) image.old).words }
{
    formed::admit(image)?;
    questions::open(image, q, budget)
}

// Works the question that is asked, at most so many steps; tells the answer, and the steps of this call.
pub fn work(image: &mut [u32], budget: u32) -> Instalment
    ensures answer_value { told_answer result.answer ≡ (perform (works budget) image.old).says }
    ensures steps_value { result.steps ≡ (perform (works budget) image.old).steps }
    ensures image_after { image.new ≡ (perform (works budget) image.old).words }
{
    match formed::admit(image) {
        Err(r) => Instalment {
            answer: Err(r),
            steps: 0,
        },
        Ok(()) => questions::work(image, budget),
    }
}

// Gives up the question that is asked.
pub fn abandon(image: &mut [u32]) -> Result<(), Refusal>
    ensures result_value { told_reply result ≡ (perform abandons image.old).says }
    ensures image_after { image.new ≡ (perform abandons image.old).words }
{
    formed::admit(image)?;
    questions::abandon(image)
}

// Reads an entry out.
pub fn entry(image: &[u32], n: u32) -> Result<Entry, Refusal>
    ensures { told_entry_read result ≡ (perform (reads_entry n) image.now).says }
{
    formed::admit(image)?;
    reads::entry_in(image, n)
}

// Reads record n of a region, 1 to 6, as it stands.
pub fn record(image: &[u32], region: u32, n: u32) -> Result<Record, Refusal>
    ensures { told_record result ≡ (perform (reads_record region n) image.now).says }
{
    formed::admit(image)?;
    reads::record_in(image, region, n)
}

// Whether two entries share no value.
pub fn disjoint(image: &[u32], left: u32, right: u32) -> Result<bool, Refusal>
    ensures { told_disjointness result ≡ (perform (reads_disjoint left right) image.now).says }
{
    formed::admit(image)?;
    reads::disjoint_in(image, left, right)
}
