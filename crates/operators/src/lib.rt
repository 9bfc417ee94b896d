// The overloaded operators on primitives: tix's operators.rs, with the numbers that document 01 gives them.
// specs/Operators.antt says what each call answers.

#![tactic(auto)]

ghost use Rattle.std.specs.Prelude.{◌≡◌};
ghost use Rattle.operators.specs.Operators.{result_of, resolved, from_left, at_once};
ghost use Rattle.operators.specs.Numbers.{OperatorRead, PrimitiveRead, operator_number, primitive_number, numbered};

use model::Refusal;

// The operators, 0 to 3.
#[derive(Clone, Copy, Debug, PartialEq, Eq)]
pub enum Operator {
    Add,
    Sub,
    Mul,
    Div,
}

impl TryFrom<u32> for Operator {
    type Error = Refusal;

    ghost try_from_gives = { OperatorRead };

    fn try_from(number: u32) -> Result<Self, Refusal> {
        match number {
            0 => Ok(Operator::Add),
            1 => Ok(Operator::Sub),
            2 => Ok(Operator::Mul),
            3 => Ok(Operator::Div),
            _ => Err(Refusal::BadNumber),
        }
    }
}

// The primitives, 0 to 7.
#[derive(Clone, Copy, Debug, PartialEq, Eq)]
pub enum Primitive {
    Null,
    Bool,
    Int,
    Float,
    String,
    Path,
    Uri,
    Number,
}

impl TryFrom<u32> for Primitive {
    type Error = Refusal;

    ghost try_from_gives = { PrimitiveRead };

    fn try_from(number: u32) -> Result<Self, Refusal> {
        match number {
            0 => Ok(Primitive::Null),
            1 => Ok(Primitive::Bool),
            2 => Ok(Primitive::Int),
            3 => Ok(Primitive::Float),
            4 => Ok(Primitive::String),
            5 => Ok(Primitive::Path),
            6 => Ok(Primitive::Uri),
            7 => Ok(Primitive::Number),
            _ => Err(Refusal::BadNumber),
        }
    }
}

// The calls take and answer numbers: C has them so.

// The result of an operator on two primitives.
#[tactic(auto, using(crate::proofs::Listed::operator_listed, crate::proofs::Listed::primitive_listed), unfolding(crate::specs::Operators::resolved))]
pub fn resolve(op: u32, left: u32, right: u32) -> Result<Option<u32>, Refusal>
    ensures { result ≡ resolved op left right }
{
    let op = Operator::try_from(op)?;
    let left = Primitive::try_from(left)?;
    let right = Primitive::try_from(right)?;
    Ok(result_of(op, left, right).map(|p| p as u32))
}

// Numbers have a result under each operator: a Float wins, then a Number. Add joins texts: the left one's primitive.
#[tactic(auto, unfolding(crate::specs::Operators::operating))]
fn result_of(op: Operator, left: Primitive, right: Primitive) -> Option<Primitive>
    ensures { numbered result ≡ result_of (operator_number op) (primitive_number left) (primitive_number right) }
{
    use Primitive::{Float, Int, Number, Path, String};

    match (op, left, right) {
        (_, Int, Int) => Some(Int),
        (_, Int | Number, Int | Number) => Some(Number),
        (_, Int | Float | Number, Int | Float | Number) => Some(Float),
        (Operator::Add, String | Path, String | Path) => Some(left),
        _ => None,
    }
}

// The result that is known from the left primitive alone.
#[tactic(auto, unfolding(crate::specs::Operators::operating))]
pub fn from_left(op: u32, left: u32) -> Result<Option<u32>, Refusal>
    ensures { result ≡ from_left op left }
{
    let op = Operator::try_from(op)?;
    let left = Primitive::try_from(left)?;
    match (op, left) {
        (Operator::Add, Primitive::String | Primitive::Path) => Ok(Some(left as u32)),
        _ => Ok(None),
    }
}

// The primitive that bounds an operator's operands and result at once.
#[tactic(auto, unfolding(crate::specs::Operators::operating))]
pub fn at_once(op: u32) -> Result<Option<u32>, Refusal>
    ensures { result ≡ at_once op }
{
    match Operator::try_from(op)? {
        Operator::Add => Ok(None),
        Operator::Sub | Operator::Mul | Operator::Div => Ok(Some(Primitive::Number as u32)),
    }
}
