// Questions in a well formed image: open, work in instalments, abandon. Each is what the model's call does where the image
// is well formed; crate `sheafwinch` has the calls.

#![tactic(auto)]

ghost use Rattle.std.specs.Prelude.{◌≡◌, ◌+◌, ◌≤◌, ◌++◌, length, T};
ghost use Rattle.model.specs.Format.{idle};
ghost use Rattle.model.specs.Table.{table_of};
ghost use Rattle.model.specs.Image.{table};
ghost use Rattle.model.specs.Formed.{well_formed};
ghost use Rattle.model.specs.Calls.{response_of, is_recorded, recorded, pairs_of, ask_turn, work_turn, open_turn, abandon_turn};
ghost use Rattle.model.specs.Told.{told_reply, told_answer, told_opening, steps_of};
ghost use Rattle.image.specs.Shown.{Shows, Shown, ShowsAs, ShownAs, store_of, pending_in, pending_to};
ghost use Rattle.questions.specs.Asking.{Roomy, Fitness, worked};

use image::{Entries, Equals, Pending};
use model::{Answer, Instalment, Question, Refusal};
use step::Step;

// Whether a question is recorded in equals.
fn is_recorded(q: Question) -> bool
    ensures { result ≡ is_recorded q }
{
    q.equal & (q.left != q.right)
}

// How many pairs a question starts with.
fn pairs_of(q: Question) -> u32
    ensures { result ≡ length (pairs_of q) }
{
    if q.equal { 2 } else { 1 }
}

// The region that lacks a record for a question, or none.
fn room_for(image: &[u32], q: Question) -> Result<(), Refusal>
    requires { T (well_formed image.now) }
    ensures { Roomy image.now q result }
{
    if image::room::<Pending>(image) < pairs_of(q) {
        return Err(Refusal::NoRoom(image::format::PENDING));
    }
    if !is_recorded(q) {
        return Ok(());
    }
    if image::room::<Equals>(image) <= image::records::<Equals>(image) {
        return Err(Refusal::NoRoom(image::format::EQUALS));
    }
    Ok(())
}

// A question's refusal, the first in 01's order, or none.
fn fitness(image: &[u32], q: Question) -> Result<(), Refusal>
    requires { T (well_formed image.now) }
    ensures { Fitness image.now q result }
{
    if image::is_asked(image) {
        return Err(Refusal::Busy);
    }
    let kind = image::break_kind(image);
    if q.held & (kind != image::format::UNBROKEN) {
        let sub = image::break_sub(image);
        let sup = image::break_sup(image);
        let name = image::break_name(image);
        return Err(Refusal::Broken {
            kind,
            sub,
            sup,
            name,
        });
    }
    if image::records::<Entries>(image) <= q.left {
        return Err(Refusal::BadNumber);
    }
    if image::records::<Entries>(image) <= q.right {
        return Err(Refusal::BadNumber);
    }
    room_for(image, q)
}

// Records a question in equals, if it is recorded at all.
fn record_equal(image: &mut [u32], q: Question)
    requires shown { Shown image.old }
    requires image_len_bound { length (recorded q (store_of image.old)).equals ≤ (store_of image.old).capacities.equals }
    ensures { Shows image.new (table_of (recorded q (store_of image.old)) (pending_in image.old)) }
{
    if !is_recorded(q) {
        return;
    }
    writes::push::<Equals>(image, &[q.left, q.right]);
}

// Puts a question's pairs, the one worked first last.
fn put_pairs(image: &mut [u32], q: Question)
    requires shown_as { ShownAs idle image.old }
    requires q_len_bound { length (pending_in image.old) + length (pairs_of q) ≤ (store_of image.old).capacities.pending }
    ensures { ShowsAs idle image.new (pending_to image.old (pending_in image.old ++ pairs_of q)) }
{
    if !q.equal {
        writes::push::<Pending>(image, &[q.left, q.right]);
        return;
    }
    writes::push::<Pending>(image, &[q.right, q.left]);
    writes::push::<Pending>(image, &[q.left, q.right]); // worked first
}

// Asks a question: the first half of an opening.
fn ask(image: &mut [u32], q: Question) -> Result<(), Refusal>
    requires { T (well_formed image.old) }
    ensures result_value { told_reply result ≡ (response_of image.old (ask_turn q (table image.old))).says }
    ensures image_after { image.new ≡ (response_of image.old (ask_turn q (table image.old))).words }
{
    fitness(image, q)?;
    record_equal(image, q);
    put_pairs(image, q);
    writes::open_question(image);
    Ok(()) // the question is asked
}

// Works a question, at most so many steps.
fn instalment(image: &mut [u32], budget: u32) -> Instalment
    requires { T (well_formed image.old) }
    ensures answer_value { told_answer result.answer ≡ (worked image.old budget).says }
    ensures steps_value { result.steps ≡ (worked image.old budget).steps }
    ensures image_after { image.new ≡ (worked image.old budget).words }
{
    let mut steps: u32 = 0;
    while 0 < image::records::<Pending>(image) {
        if steps == budget {
            return Instalment {
                answer: Ok(Answer::More),
                steps,
            };
        }
        match step::take_step(image) {
            Ok(Step::Went) => steps += 1,
            Ok(Step::Failed(f)) => {
                return Instalment {
                    answer: Ok(Answer::Failed(f)),
                    steps: steps + 1,
                };
            }
            Err(r) => {
                return Instalment {
                    answer: Err(r),
                    steps,
                };
            }
        }
    }
    Instalment {
        answer: Ok(Answer::Yes),
        steps,
    }
}

// Works the question that is asked.
pub fn work(image: &mut [u32], budget: u32) -> Instalment
    requires { T (well_formed image.old) }
    ensures answer_value { told_answer result.answer ≡ (response_of image.old (work_turn budget (table image.old))).says }
    ensures steps_value { result.steps ≡ (response_of image.old (work_turn budget (table image.old))).steps }
    ensures image_after { image.new ≡ (response_of image.old (work_turn budget (table image.old))).words }
{
    if !image::is_asked(image) {
        return Instalment {
            answer: Err(Refusal::Idle),
            steps: 0,
        };
    }
    instalment(image, budget)
}

// Opens a question, and works it, at most so many steps.
pub fn open(image: &mut [u32], q: Question, budget: u32) -> Result<Instalment, Refusal>
    requires { T (well_formed image.old) }
    ensures result_value { told_opening result ≡ (response_of image.old (open_turn q budget (table image.old))).says }
    ensures result_value_2 { steps_of result ≡ (response_of image.old (open_turn q budget (table image.old))).steps }
    ensures image_after { image.new ≡ (response_of image.old (open_turn q budget (table image.old))).words }
{
    ask(image, q)?;
    Ok(work(image, budget))
}

// Gives the question up: pending is emptied, and the image idle.
pub fn abandon(image: &mut [u32]) -> Result<(), Refusal>
    requires { T (well_formed image.old) }
    ensures result_value { told_reply result ≡ (response_of image.old (abandon_turn (table image.old))).says }
    ensures image_after { image.new ≡ (response_of image.old (abandon_turn (table image.old))).words }
{
    if !image::is_asked(image) {
        return Err(Refusal::Idle);
    }
    writes::end_question(image);
    Ok(())
}
