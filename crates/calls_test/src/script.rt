// The calls of the small scripts, and what each answers. A call that is refused is held to the words that stood before it.
ghost use Rattle.std.specs.Prelude.{◌≡◌, length, IfOk};
ghost use Rattle.table_words.specs.Records.{size_of};

use crate::answers::{Answered, Told};
use image::Capacities;
use operators::Primitive;
use std::alloc::{AllocError, Global};
use std::io;
use std::io::Write;
use table_words::size_of;

// A call, and what it is given.
#[derive(Clone, Copy)]
pub enum Call {
    Variable,
    Primitive(Primitive),
    Named(u32, u32),
    Inter(u32, u32),
    Union(u32, u32),
    Neg(u32),
    Attrset {
        fields: &'static [u32],
        is_open: bool,
        dynamic: Option<u32>,
    },
    // a variable, its side, and the bound
    PutBound(u32, u32, u32),
    Mark(u32),
    Enter,
    // a pair, and a budget
    Open(u32, u32, u32),
    OpenEqual(u32, u32, u32),
    Work(u32),
    Abandon,
}

impl Call {
    // Makes the call.
    fn make(self, words: &mut [u32]) -> Answered {
        match self {
            Call::Variable => sheafwinch::make_variable(words).into(),
            Call::Primitive(which) => sheafwinch::make_primitive(words, which as u32).into(),
            Call::Named(inner, label) => sheafwinch::make_named(words, inner, label).into(),
            Call::Inter(left, right) => sheafwinch::make_inter(words, left, right).into(),
            Call::Union(left, right) => sheafwinch::make_union(words, left, right).into(),
            Call::Neg(n) => sheafwinch::make_neg(words, n).into(),
            Call::Attrset {
                fields,
                is_open,
                dynamic,
            } => sheafwinch::make_attrset(words, fields, is_open, dynamic).into(),
            Call::PutBound(variable, side, bound) => {
                sheafwinch::put_bound(words, variable, side, bound).into()
            }
            Call::Mark(n) => sheafwinch::mark(words, n).into(),
            Call::Enter => sheafwinch::enter(words).into(),
            Call::Open(sub, sup, budget) => {
                sheafwinch::open(words, false, sub, sup, budget).into()
            }
            Call::OpenEqual(left, right, budget) => {
                sheafwinch::open_equal(words, false, left, right, budget).into()
            }
            Call::Work(budget) => sheafwinch::work(words, budget).into(),
            Call::Abandon => sheafwinch::abandon(words).into(),
        }
    }
}

// As many words as an image of these capacities takes.
pub fn room(alloc: Global, capacities: Capacities) -> Result<Vec<u32>, AllocError>
    ensures { IfOk result (λ words. length words.items ≡ size_of capacities) }
{
    Ok(vec![in alloc; 7; size_of(capacities)]?)
}

// Makes the calls, and prints what each answers.
pub fn run<W: Write>(out: &mut W, image: &mut Vec<u32>, calls: &[Call]) -> io::Result<()> {
    for call in calls {
        let before = image.clone()?;
        let answered = call.make(image);
        let is_same = *image == before;
        let told = Told { answered, is_same };
        write!(out, "{told}")?;
    }
    Ok(())
}
