// The calls for C: lent words come as a pointer and a count of words, every number as a uint32_t, every answer as one struct.
// Each is the call that it wraps: its answer is `answer_of` of what the model's call says, its words are the model's.
// include/sheafwinch.h tells a C programmer the same. C has a function for each call, so they stay as many, alike as they are.

#![tactic(auto)]

mod answers;

ghost use Rattle.std.specs.Prelude.{◌≡◌};
ghost use Rattle.model.specs.Formed.{well_formed};
ghost use Rattle.model.specs.Calls.{perform, makes_variable, makes_primitive, makes_list, makes_lambda, makes_attrset, makes_named, makes_neg, makes_inter, makes_union, marks, puts_bound, enters, exits, sets_level, under, both_ways, opens, works, abandons, reads_entry, reads_record, reads_disjoint};
ghost use Rattle.model.specs.Calls.{start as start_of};
ghost use Rattle.names.specs.Names.{check_names, check_name, count_names, compare_at, find_name, place_name};
ghost use Rattle.operators.specs.Operators.{told_resolved, resolved, from_left, at_once};
ghost use Rattle.capi.specs.Answers.{answer_of, flag_of, dynamic_of, capacities_of};

// An answer: its kind, 01's number of a refusal or a failure, the steps of this call, and so many values.
#[repr(C)]
#[derive(Drop)]
pub struct Answer {
    pub kind: u32,
    pub number: u32,
    pub steps: u32,
    pub count: u32,
    pub v0: u32,
    pub v1: u32,
    pub v2: u32,
    pub v3: u32,
    pub v4: u32,
    pub v5: u32,
    pub v6: u32,
    pub v7: u32,
}

// How many records each region has room for.
#[repr(C)]
#[derive(Drop)]
pub struct Capacities {
    pub entries: u32,
    pub fields: u32,
    pub bounds: u32,
    pub visited: u32,
    pub pending: u32,
    pub equals: u32,
}

// A flag: 0 is no, any other word yes.
fn flag(word: u32) -> bool
    ensures { result ≡ flag_of word }
{
    word != 0
}

// A dynamic type, where there is one.
fn dynamic_of(has: u32, n: u32) -> Option<u32>
    ensures { result ≡ dynamic_of has n }
{
    if flag(has) { Some(n) } else { None }
}

// Whether the words are a well formed image.
#[unsafe(no_mangle)]
pub extern "C" fn sheafwinch_check(image: &[u32]) -> bool
    ensures { result ≡ well_formed image.now }
{
    formed::check(image)
}

// Starts an image in the lent words.
#[unsafe(no_mangle)]
pub extern "C" fn sheafwinch_start(
    image: &mut [u32],
    names: u32,
    functor: u32,
    capacities: Capacities,
) -> Answer
    ensures value { result ≡ answer_of 0 (start_of names functor (capacities_of capacities) image.old).says }
    ensures image_after { image.new ≡ (start_of names functor (capacities_of capacities) image.old).words }
{
    let reply = sheafwinch::start(
        image,
        names,
        functor,
        image::Capacities {
            entries: capacities.entries,
            fields: capacities.fields,
            bounds: capacities.bounds,
            visited: capacities.visited,
            pending: capacities.pending,
            equals: capacities.equals,
        },
    );
    answers::of_reply(reply)
}

// Makes a variable at the current level.
#[unsafe(no_mangle)]
pub extern "C" fn sheafwinch_make_variable(image: &mut [u32]) -> Answer
    ensures value { result ≡ answer_of 0 (perform makes_variable image.old).says }
    ensures image_after { image.new ≡ (perform makes_variable image.old).words }
{
    let answer = sheafwinch::make_variable(image);
    answers::of_made(answer)
}

// Makes a primitive.
#[unsafe(no_mangle)]
pub extern "C" fn sheafwinch_make_primitive(image: &mut [u32], which: u32) -> Answer
    ensures value { result ≡ answer_of 0 (perform (makes_primitive which) image.old).says }
    ensures image_after { image.new ≡ (perform (makes_primitive which) image.old).words }
{
    let answer = sheafwinch::make_primitive(image, which);
    answers::of_made(answer)
}

// Makes a list.
#[unsafe(no_mangle)]
pub extern "C" fn sheafwinch_make_list(image: &mut [u32], element: u32) -> Answer
    ensures value { result ≡ answer_of 0 (perform (makes_list element) image.old).says }
    ensures image_after { image.new ≡ (perform (makes_list element) image.old).words }
{
    let answer = sheafwinch::make_list(image, element);
    answers::of_made(answer)
}

// Makes a lambda.
#[unsafe(no_mangle)]
pub extern "C" fn sheafwinch_make_lambda(image: &mut [u32], param: u32, body: u32) -> Answer
    ensures value { result ≡ answer_of 0 (perform (makes_lambda param body) image.old).says }
    ensures image_after { image.new ≡ (perform (makes_lambda param body) image.old).words }
{
    let answer = sheafwinch::make_lambda(image, param, body);
    answers::of_made(answer)
}

// Makes an attrset with the fields of a list.
#[unsafe(no_mangle)]
pub extern "C" fn sheafwinch_make_attrset(
    image: &mut [u32],
    fields: &[u32],
    is_open: u32,
    has_dynamic: u32,
    dynamic: u32,
) -> Answer
    ensures value { result ≡ answer_of 0 (perform (makes_attrset fields.now (flag_of is_open) (dynamic_of has_dynamic dynamic)) image.old).says }
    ensures image_after { image.new ≡ (perform (makes_attrset fields.now (flag_of is_open) (dynamic_of has_dynamic dynamic)) image.old).words }
{
    let open_flag = flag(is_open);
    let dynamic_type = dynamic_of(has_dynamic, dynamic);
    let answer = sheafwinch::make_attrset(image, fields, open_flag, dynamic_type);
    answers::of_made(answer)
}

// Makes a named entry.
#[unsafe(no_mangle)]
pub extern "C" fn sheafwinch_make_named(image: &mut [u32], inner: u32, label: u32) -> Answer
    ensures value { result ≡ answer_of 0 (perform (makes_named inner label) image.old).says }
    ensures image_after { image.new ≡ (perform (makes_named inner label) image.old).words }
{
    let answer = sheafwinch::make_named(image, inner, label);
    answers::of_made(answer)
}

// Makes a negation.
#[unsafe(no_mangle)]
pub extern "C" fn sheafwinch_make_neg(image: &mut [u32], n: u32) -> Answer
    ensures value { result ≡ answer_of 0 (perform (makes_neg n) image.old).says }
    ensures image_after { image.new ≡ (perform (makes_neg n) image.old).words }
{
    let answer = sheafwinch::make_neg(image, n);
    answers::of_made(answer)
}

// Makes an intersection.
#[unsafe(no_mangle)]
pub extern "C" fn sheafwinch_make_inter(image: &mut [u32], left: u32, right: u32) -> Answer
    ensures value { result ≡ answer_of 0 (perform (makes_inter left right) image.old).says }
    ensures image_after { image.new ≡ (perform (makes_inter left right) image.old).words }
{
    let answer = sheafwinch::make_inter(image, left, right);
    answers::of_made(answer)
}

// Makes a union.
#[unsafe(no_mangle)]
pub extern "C" fn sheafwinch_make_union(image: &mut [u32], left: u32, right: u32) -> Answer
    ensures value { result ≡ answer_of 0 (perform (makes_union left right) image.old).says }
    ensures image_after { image.new ≡ (perform (makes_union left right) image.old).words }
{
    let answer = sheafwinch::make_union(image, left, right);
    answers::of_made(answer)
}

// Sets the default mark of an entry.
#[unsafe(no_mangle)]
pub extern "C" fn sheafwinch_mark(image: &mut [u32], n: u32) -> Answer
    ensures value { result ≡ answer_of 0 (perform (marks n) image.old).says }
    ensures image_after { image.new ≡ (perform (marks n) image.old).words }
{
    let answer = sheafwinch::mark(image, n);
    answers::of_reply(answer)
}

// Puts a bound of a variable.
#[unsafe(no_mangle)]
pub extern "C" fn sheafwinch_put_bound(
    image: &mut [u32],
    variable: u32,
    side: u32,
    bound: u32,
) -> Answer
    ensures value { result ≡ answer_of 0 (perform (puts_bound variable side bound) image.old).says }
    ensures image_after { image.new ≡ (perform (puts_bound variable side bound) image.old).words }
{
    let answer = sheafwinch::put_bound(image, variable, side, bound);
    answers::of_reply(answer)
}

// Enters a level.
#[unsafe(no_mangle)]
pub extern "C" fn sheafwinch_enter(image: &mut [u32]) -> Answer
    ensures value { result ≡ answer_of 0 (perform enters image.old).says }
    ensures image_after { image.new ≡ (perform enters image.old).words }
{
    let answer = sheafwinch::enter(image);
    answers::of_reply(answer)
}

// Leaves a level.
#[unsafe(no_mangle)]
pub extern "C" fn sheafwinch_exit(image: &mut [u32]) -> Answer
    ensures value { result ≡ answer_of 0 (perform exits image.old).says }
    ensures image_after { image.new ≡ (perform exits image.old).words }
{
    let answer = sheafwinch::exit(image);
    answers::of_reply(answer)
}

// Sets a variable's level.
#[unsafe(no_mangle)]
pub extern "C" fn sheafwinch_set_level(image: &mut [u32], variable: u32, level: u32) -> Answer
    ensures value { result ≡ answer_of 0 (perform (sets_level variable level) image.old).says }
    ensures image_after { image.new ≡ (perform (sets_level variable level) image.old).words }
{
    let answer = sheafwinch::set_level(image, variable, level);
    answers::of_reply(answer)
}

// Opens the question whether sub fits under sup, and works it, at most so many steps.
#[unsafe(no_mangle)]
pub extern "C" fn sheafwinch_open(
    image: &mut [u32],
    held: u32,
    sub: u32,
    sup: u32,
    budget: u32,
) -> Answer
    ensures value { result ≡ answer_of (perform (opens (under (flag_of held) sub sup) budget) image.old).steps (perform (opens (under (flag_of held) sub sup) budget) image.old).says }
    ensures image_after { image.new ≡ (perform (opens (under (flag_of held) sub sup) budget) image.old).words }
{
    let is_held = flag(held);
    let answer = sheafwinch::open(image, is_held, sub, sup, budget);
    answers::of_opening(answer)
}

// Opens the question whether each of two entries fits under the other.
#[unsafe(no_mangle)]
pub extern "C" fn sheafwinch_open_equal(
    image: &mut [u32],
    held: u32,
    left: u32,
    right: u32,
    budget: u32,
) -> Answer
    ensures value { result ≡ answer_of (perform (opens (both_ways (flag_of held) left right) budget) image.old).steps (perform (opens (both_ways (flag_of held) left right) budget) image.old).says }
    ensures image_after { image.new ≡ (perform (opens (both_ways (flag_of held) left right) budget) image.old).words }
{
    let is_held = flag(held);
    let answer = sheafwinch::open_equal(image, is_held, left, right, budget);
    answers::of_opening(answer)
}

// Works the question that is asked.
#[unsafe(no_mangle)]
pub extern "C" fn sheafwinch_work(image: &mut [u32], budget: u32) -> Answer
    ensures value { result ≡ answer_of (perform (works budget) image.old).steps (perform (works budget) image.old).says }
    ensures image_after { image.new ≡ (perform (works budget) image.old).words }
{
    let answer = sheafwinch::work(image, budget);
    answers::of_instalment(answer)
}

// Gives up the question that is asked.
#[unsafe(no_mangle)]
pub extern "C" fn sheafwinch_abandon(image: &mut [u32]) -> Answer
    ensures value { result ≡ answer_of 0 (perform abandons image.old).says }
    ensures image_after { image.new ≡ (perform abandons image.old).words }
{
    let answer = sheafwinch::abandon(image);
    answers::of_reply(answer)
}

// Reads an entry out.
#[unsafe(no_mangle)]
pub extern "C" fn sheafwinch_entry(image: &[u32], n: u32) -> Answer
    ensures { result ≡ answer_of 0 (perform (reads_entry n) image.now).says }
{
    let answer = sheafwinch::entry(image, n);
    answers::of_entry_read(answer)
}

// Reads a region's record.
#[unsafe(no_mangle)]
pub extern "C" fn sheafwinch_record(image: &[u32], region: u32, n: u32) -> Answer
    ensures { result ≡ answer_of 0 (perform (reads_record region n) image.now).says }
{
    let answer = sheafwinch::record(image, region, n);
    answers::of_record(answer)
}

// Whether two entries share no value.
#[unsafe(no_mangle)]
pub extern "C" fn sheafwinch_disjoint(image: &[u32], left: u32, right: u32) -> Answer
    ensures { result ≡ answer_of 0 (perform (reads_disjoint left right) image.now).says }
{
    let answer = sheafwinch::disjoint(image, left, right);
    answers::of_disjointness(answer)
}

// Whether the bytes are a name list.
#[unsafe(no_mangle)]
pub extern "C" fn sheafwinch_check_names(list: &[u8]) -> Answer
    ensures { result ≡ answer_of 0 (check_names list.now) }
{
    let answer = names::check(list);
    answers::of_reply(answer)
}

// Whether name n can be shown.
#[unsafe(no_mangle)]
pub extern "C" fn sheafwinch_check_name(list: &[u8], n: u32) -> Answer
    ensures { result ≡ answer_of 0 (check_name list.now n) }
{
    let answer = names::check_name(list, n);
    answers::of_reply(answer)
}

// How many names a list has.
#[unsafe(no_mangle)]
pub extern "C" fn sheafwinch_count_names(list: &[u8]) -> Answer
    ensures { result ≡ answer_of 0 (count_names list.now) }
{
    let answer = names::count(list);
    answers::of_counted(answer)
}

// Where in the list name n starts, and how many bytes it has.
#[unsafe(no_mangle)]
pub extern "C" fn sheafwinch_show_name(list: &[u8], n: u32) -> Answer
    ensures { result ≡ answer_of 0 (place_name list.now n) }
{
    let answer = names::place(list, n);
    answers::of_placed(answer)
}

// How two names of a list compare.
#[unsafe(no_mangle)]
pub extern "C" fn sheafwinch_compare_names(list: &[u8], left: u32, right: u32) -> Answer
    ensures { result ≡ answer_of 0 (compare_at list.now left right) }
{
    let answer = names::compare(list, left, right);
    answers::of_compared(answer)
}

// The number of the name that has the bytes.
#[unsafe(no_mangle)]
pub extern "C" fn sheafwinch_find_name(list: &[u8], bytes: &[u8]) -> Answer
    ensures { result ≡ answer_of 0 (find_name list.now bytes.now) }
{
    let answer = names::find(list, bytes);
    answers::of_found(answer)
}

// The result of an operator on two primitives.
#[unsafe(no_mangle)]
pub extern "C" fn sheafwinch_resolve(op: u32, left: u32, right: u32) -> Answer
    ensures { result ≡ answer_of 0 (told_resolved (resolved op left right)) }
{
    let answer = operators::resolve(op, left, right);
    answers::of_resolved(answer)
}

// What is known of the result from the left primitive alone.
#[unsafe(no_mangle)]
pub extern "C" fn sheafwinch_from_left(op: u32, left: u32) -> Answer
    ensures { result ≡ answer_of 0 (told_resolved (from_left op left)) }
{
    let answer = operators::from_left(op, left);
    answers::of_resolved(answer)
}

// What both operands are bound by at once.
#[unsafe(no_mangle)]
pub extern "C" fn sheafwinch_at_once(op: u32) -> Answer
    ensures { result ≡ answer_of 0 (told_resolved (at_once op)) }
{
    let answer = operators::at_once(op);
    answers::of_resolved(answer)
}
