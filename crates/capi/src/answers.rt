// Answers as C gets them: each enum's cases with 01's number and values.
ghost use Rattle.std.specs.Prelude.{◌≡◌, ◌≤◌, length};
ghost use Rattle.model.specs.Told.{done, bit, number_of, carried, carried_values, told_refusal, told_unopened, told_failure, told_reply, told_made, told_answer, told_opening, steps_of, told_attrset, told_entry, told_entry_read, told_record, told_disjointness};
ghost use Rattle.names.specs.Answers.{told_counted, told_compared, told_found, told_placed};
ghost use Rattle.operators.specs.Operators.{told_resolved};
ghost use Rattle.capi.specs.Answers.{answer, answer_of};
ghost use Rattle.capi.specs.Kinds.{kind_number};

use crate::Answer;
use model::{Attrset, Carried, Entry, Failure, Instalment, Record, Refusal};
use names::Placed;
use std::cmp::Ordering;

// An answer's kind, 0 to 5.
#[derive(Clone, Copy, Debug, PartialEq, Eq)]
enum Kind {
    Done,
    Yes,
    More,
    Failed,
    Refused,
    Unopened,
}

// An answer with its values, at most eight.
fn with_values(kind: Kind, number: u32, steps: u32, values: &[u32]) -> Answer
    requires { length values.now ≤ 8 }
    ensures { result ≡ answer (kind_number kind) number steps values.now }
{
    let value = |i: usize| values.get(i).copied().unwrap_or(0);
    Answer {
        kind: kind as u32,
        number,
        steps,
        count: values.len() as u32,
        v0: value(0),
        v1: value(1),
        v2: value(2),
        v3: value(3),
        v4: value(4),
        v5: value(5),
        v6: value(6),
        v7: value(7),
    }
}

// What is done, with its values.
fn done(values: &[u32]) -> Answer
    requires { length values.now ≤ 8 }
    ensures { result ≡ answer_of 0 (done values.now) }
{
    with_values(Kind::Done, 0, 0, values)
}

// A refusal of either kind, after so many steps: its number, and what it carries.
fn numbered(kind: Kind, steps: u32, refusal: Refusal) -> Answer
    ensures { result ≡ answer (kind_number kind) (number_of refusal) steps (carried_values (carried refusal)) }
{
    let number = refusals::number(refusal);
    match refusals::carried(refusal) {
        Carried::Nothing => with_values(kind, number, steps, &[]),
        Carried::Region(region) => with_values(kind, number, steps, &[region]),
        Carried::Break {
            kind: why,
            sub,
            sup,
            name,
        } => with_values(kind, number, steps, &[why, sub, sup, name]),
    }
}

// A refusal, after so many steps.
pub fn of_refusal(steps: u32, refusal: Refusal) -> Answer
    ensures { result ≡ answer_of steps (told_refusal refusal) }
{
    numbered(Kind::Refused, steps, refusal)
}

// A refusal at the opening.
fn of_unopened(refusal: Refusal) -> Answer
    ensures { result ≡ answer_of 0 (told_unopened refusal) }
{
    numbered(Kind::Unopened, 0, refusal)
}

// A failure, after so many steps.
fn of_failure(steps: u32, failure: Failure) -> Answer
    ensures { result ≡ answer_of steps (told_failure failure) }
{
    match failure {
        Failure::Mismatch { sub, sup } => with_values(Kind::Failed, 1, steps, &[sub, sup]),
        Failure::MissingField { sub, sup, name } => with_values(
            Kind::Failed,
            2,
            steps,
            &[sub, sup, name],
        ),
    }
}

// What a call answers that has nothing else to say.
pub fn of_reply(reply: Result<(), Refusal>) -> Answer
    ensures { result ≡ answer_of 0 (told_reply reply) }
{
    match reply {
        Ok(()) => done(&[]),
        Err(refusal) => of_refusal(0, refusal),
    }
}

// What a make answers.
pub fn of_made(made: Result<u32, Refusal>) -> Answer
    ensures { result ≡ answer_of 0 (told_made made) }
{
    match made {
        Ok(n) => done(&[n]),
        Err(refusal) => of_refusal(0, refusal),
    }
}

// What work answers.
pub fn of_instalment(instalment: Instalment) -> Answer
    ensures { result ≡ answer_of instalment.steps (told_answer instalment.answer) }
{
    let steps = instalment.steps;
    match instalment.answer {
        Ok(model::Answer::Yes) => with_values(Kind::Yes, 0, steps, &[]),
        Ok(model::Answer::More) => with_values(Kind::More, 0, steps, &[]),
        Ok(model::Answer::Failed(failure)) => of_failure(steps, failure),
        Err(refusal) => of_refusal(steps, refusal),
    }
}

// What an opening answers.
pub fn of_opening(opening: Result<Instalment, Refusal>) -> Answer
    ensures { result ≡ answer_of (steps_of opening) (told_opening opening) }
{
    match opening {
        Err(refusal) => of_unopened(refusal),
        Ok(instalment) => of_instalment(instalment),
    }
}

// An attrset.
fn of_attrset(a: Attrset) -> Answer
    ensures { result ≡ answer_of 0 (done (told_attrset a.first a.count a.is_open a.dynamic)) }
{
    match a.dynamic {
        None => done(&[4, a.first, a.count, u32::from(a.is_open), 0, 0]),
        Some(n) => done(&[4, a.first, a.count, u32::from(a.is_open), 1, n]),
    }
}

// An entry.
fn of_entry(entry: Entry) -> Answer
    ensures { result ≡ answer_of 0 (done (told_entry entry)) }
{
    match entry {
        Entry::Variable { level } => done(&[0, level]),
        Entry::Primitive(which) => done(&[1, which]),
        Entry::List(element) => done(&[2, element]),
        Entry::Lambda { param, body } => done(&[3, param, body]),
        Entry::AttrSet(a) => of_attrset(a),
        Entry::Named { inner, label } => done(&[5, inner, label]),
        Entry::Neg(inner) => done(&[6, inner]),
        Entry::Inter(left, right) => done(&[7, left, right]),
        Entry::Union(left, right) => done(&[8, left, right]),
    }
}

// What the read of an entry answers.
pub fn of_entry_read(read: Result<Entry, Refusal>) -> Answer
    ensures { result ≡ answer_of 0 (told_entry_read read) }
{
    match read {
        Ok(entry) => of_entry(entry),
        Err(refusal) => of_refusal(0, refusal),
    }
}

// What the read of a record answers.
pub fn of_record(read: Result<Record, Refusal>) -> Answer
    ensures { result ≡ answer_of 0 (told_record read) }
{
    match read {
        Ok(
            Record::Entry {
                kind,
                x,
                y,
                z,
                flags,
                spread,
                negation,
            },
        ) => done(&[1, kind, x, y, z, flags, spread, negation]),
        Ok(
            Record::Field {
                name,
                entry,
                optional,
            },
        ) => done(&[2, name, entry, optional]),
        Ok(
            Record::Bound {
                variable,
                side,
                bound,
            },
        ) => done(&[3, variable, side, bound]),
        Ok(Record::Visited { sub, sup }) => done(&[4, sub, sup]),
        Ok(Record::Pending { sub, sup }) => done(&[5, sub, sup]),
        Ok(Record::Equal { left, right }) => done(&[6, left, right]),
        Err(refusal) => of_refusal(0, refusal),
    }
}

// What the disjointness read answers.
pub fn of_disjointness(disjointness: Result<bool, Refusal>) -> Answer
    ensures { result ≡ answer_of 0 (told_disjointness disjointness) }
{
    match disjointness {
        Ok(disjoint) => done(&[u32::from(disjoint)]),
        Err(refusal) => of_refusal(0, refusal),
    }
}

// What the count of names answers.
pub fn of_counted(counted: Result<u32, Refusal>) -> Answer
    ensures { result ≡ answer_of 0 (told_counted counted) }
{
    match counted {
        Ok(n) => done(&[n]),
        Err(refusal) => of_refusal(0, refusal),
    }
}

// What the comparison of two names answers: 0 before, 1 same, 2 after.
pub fn of_compared(compared: Result<Ordering, Refusal>) -> Answer
    ensures { result ≡ answer_of 0 (told_compared compared) }
{
    match compared {
        Ok(Ordering::Less) => done(&[0]),
        Ok(Ordering::Equal) => done(&[1]),
        Ok(Ordering::Greater) => done(&[2]),
        Err(refusal) => of_refusal(0, refusal),
    }
}

// What the search for a name answers.
pub fn of_found(found: Result<Option<u32>, Refusal>) -> Answer
    ensures { result ≡ answer_of 0 (told_found found) }
{
    match found {
        Ok(Some(n)) => done(&[n]),
        Ok(None) => done(&[]),
        Err(refusal) => of_refusal(0, refusal),
    }
}

// What the call for a name's place answers.
pub fn of_placed(placed: Result<Placed, Refusal>) -> Answer
    ensures { result ≡ answer_of 0 (told_placed placed) }
{
    match placed {
        Ok(Placed { start, bytes }) => done(&[start, bytes]),
        Err(refusal) => of_refusal(0, refusal),
    }
}

// What an operator call answers.
pub fn of_resolved(resolved: Result<Option<u32>, Refusal>) -> Answer
    ensures { result ≡ answer_of 0 (told_resolved resolved) }
{
    match resolved {
        Ok(Some(p)) => done(&[p]),
        Ok(None) => done(&[]),
        Err(refusal) => of_refusal(0, refusal),
    }
}
