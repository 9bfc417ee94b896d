// Which rule fits two concrete entries: one decision over their kinds and primitive numbers, arms in the Rust's order. Crate `constrain`
// says what each comes to.

#![tactic(auto)]

ghost use Rattle.std.specs.Prelude.{◌≡◌, ◌≤◌};
ghost use Rattle.model.specs.Rules.{arm_of};
ghost use Rattle.decision.specs.Decide.{ArmFits, arm_in};

use image::format::{
    ATTRSET, FLOAT, INT, INTER, LAMBDA, LIST, NAMED, NEG, NUMBER, PRIMITIVE, UNION,
};

// The rule that fits two concrete entries.
#[derive(Clone, Copy, Debug, PartialEq, Eq)]
pub enum Arm {
    SubNamed,
    SupNamed,
    Lambdas,
    Lists,
    Attrsets,
    Nothing,
    Negs,
    UnderNeg,
    SupInter,
    SubUnion,
    SubInter,
    SupUnion,
    Functor,
    Mismatch,
}

// The first that fits, by the kinds of sub and sup, and by p and q, their numbers if both are primitives.
fn first_fit(sub: u32, sup: u32, p: u32, q: u32) -> Arm
    requires { (1 ≤ sub) × (sub ≤ 8) × (1 ≤ sup) × (sup ≤ 8) }
    ensures { ArmFits result sub sup p q }
{
    match (sub, sup) {
        (NAMED, _) => Arm::SubNamed,
        (_, NAMED) => Arm::SupNamed,
        (LAMBDA, LAMBDA) => Arm::Lambdas,
        (LIST, LIST) => Arm::Lists,
        (ATTRSET, ATTRSET) => Arm::Attrsets,
        (PRIMITIVE, PRIMITIVE) if p == q => Arm::Nothing,
        (PRIMITIVE, PRIMITIVE) => match (p, q) {
            (INT | FLOAT, NUMBER) => Arm::Nothing,
            _ => Arm::Mismatch,
        },
        (NEG, NEG) => Arm::Negs,
        (..NEG, NEG) => Arm::UnderNeg,
        (_, INTER) => Arm::SupInter,
        (UNION, _) => Arm::SubUnion,
        (INTER, _) => Arm::SubInter,
        (_, UNION) => Arm::SupUnion,
        (ATTRSET, LAMBDA) => Arm::Functor,
        _ => Arm::Mismatch,
    }
}

// The same, as the rules say it.
pub fn decide(sub: u32, sup: u32, p: u32, q: u32) -> Arm
    requires { (1 ≤ sub) × (sub ≤ 8) × (1 ≤ sup) × (sup ≤ 8) }
    ensures result_value { arm_in result ≡ arm_of sub sup p q }
    ensures arm_fits { ArmFits result sub sup p q }
{
    first_fit(sub, sup, p, q)
}
