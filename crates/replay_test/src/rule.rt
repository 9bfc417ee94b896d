// The rules of 01, as they are counted.
use std::fmt;

// The side that a rule works on.
#[derive(Clone, Copy, PartialEq, Eq, PartialOrd, Ord)]
pub enum Side {
    Left,
    Right,
}

// How a field of sup is met in sub.
#[derive(Clone, Copy, PartialEq, Eq, PartialOrd, Ord)]
pub enum Met {
    Same,
    Dynamic,
    Open,
    Optional,
    Missing,
}

impl fmt::Display for Met {
    fn fmt<W: fmt::Write>(&self, f: &mut fmt::Formatter<W>) -> fmt::Result {
        f.write_str(match self {
            Met::Same => "the same field",
            Met::Dynamic => "sub's dynamic type",
            Met::Open => "sub open",
            Met::Optional => "optional",
            Met::Missing => "missing",
        })
    }
}

// A rule that has a left and a right case.
#[derive(Clone, Copy, PartialEq, Eq, PartialOrd, Ord)]
pub enum Sided {
    Named,
    InterDisjoint,
    InterSup,
    InterNew,
    CompatibleKind,
    CompatibleNamed,
    CompatibleFunctor,
    NotCompatible,
    UnionOther,
    UnionKind,
}

impl fmt::Display for Sided {
    fn fmt<W: fmt::Write>(&self, f: &mut fmt::Formatter<W>) -> fmt::Result {
        f.write_str(match self {
            Sided::Named => "named",
            Sided::InterDisjoint => "inter on the left, one chosen, mismatch",
            Sided::InterSup => "inter on the left, one chosen, target is sup",
            Sided::InterNew => "inter on the left, one chosen, target is new",
            Sided::CompatibleKind => "union on the right, one variable, same kind",
            Sided::CompatibleNamed => "union on the right, one variable, named",
            Sided::CompatibleFunctor => "union on the right, one variable, functor",
            Sided::NotCompatible => "union on the right, one variable, not compatible",
            Sided::UnionOther => "union on the right, one not disjoint",
            Sided::UnionKind => "union on the right, one of the same kind",
        })
    }
}

// A rule, and how attrsets are met.
#[derive(Clone, Copy, PartialEq, Eq, PartialOrd, Ord)]
pub enum Rule {
    VariableVariable,
    VariableConcrete,
    ConcreteVariable,
    Lambdas,
    Lists,
    EqualPrimitives,
    UnderNumber,
    FunctorLambda,
    Mismatch,
    Attrsets,
    Field(Met),
    Dynamics,
    NegNeg,
    NegDisjoint,
    NegMismatch,
    InterRight,
    UnionLeft,
    InterBoth,
    InterNone,
    UnionVariables,
    UnionDisjoint,
    UnionBoth,
    Of(Sided, Side),
}

impl fmt::Display for Rule {
    fn fmt<W: fmt::Write>(&self, f: &mut fmt::Formatter<W>) -> fmt::Result {
        match self {
            Rule::VariableVariable => write!(f, "variable under variable"),
            Rule::VariableConcrete => write!(f, "variable under concrete"),
            Rule::ConcreteVariable => write!(f, "concrete under variable"),
            Rule::Lambdas => write!(f, "lambdas"),
            Rule::Lists => write!(f, "lists"),
            Rule::EqualPrimitives => write!(f, "equal primitives"),
            Rule::UnderNumber => write!(f, "Int or Float under Number"),
            Rule::FunctorLambda => write!(f, "functor under lambda"),
            Rule::Mismatch => write!(f, "no rule fits, mismatch"),
            Rule::Attrsets => write!(f, "attrsets"),
            Rule::Field(met) => write!(f, "  sup's field, {met}"),
            Rule::Dynamics => write!(f, "  two dynamic types"),
            Rule::NegNeg => write!(f, "neg under neg"),
            Rule::NegDisjoint => write!(f, "under neg, disjoint"),
            Rule::NegMismatch => write!(f, "under neg, mismatch"),
            Rule::InterRight => write!(f, "inter on the right"),
            Rule::UnionLeft => write!(f, "union on the left"),
            Rule::InterBoth => write!(f, "inter on the left, both chosen"),
            Rule::InterNone => write!(f, "inter on the left, none chosen"),
            Rule::UnionVariables => write!(f, "union on the right, both variables"),
            Rule::UnionDisjoint => write!(f, "union on the right, both disjoint, mismatch"),
            Rule::UnionBoth => write!(f, "union on the right, both"),
            Rule::Of(sided, _) => write!(f, "{sided}"),
        }
    }
}

// The rules with a variable, in the order of printing.
pub const WITH_VARIABLE: [Rule; 3] = [
    Rule::VariableVariable,
    Rule::VariableConcrete,
    Rule::ConcreteVariable,
];

// The others; of one with two cases the left one.
pub const WITHOUT: [Rule; 33] = [
    Rule::Of(Sided::Named, Side::Left),
    Rule::Lambdas,
    Rule::Lists,
    Rule::EqualPrimitives,
    Rule::UnderNumber,
    Rule::FunctorLambda,
    Rule::Mismatch,
    Rule::Attrsets,
    Rule::Field(Met::Same),
    Rule::Field(Met::Dynamic),
    Rule::Field(Met::Open),
    Rule::Field(Met::Optional),
    Rule::Field(Met::Missing),
    Rule::Dynamics,
    Rule::NegNeg,
    Rule::NegDisjoint,
    Rule::NegMismatch,
    Rule::InterRight,
    Rule::UnionLeft,
    Rule::InterBoth,
    Rule::InterNone,
    Rule::Of(Sided::InterDisjoint, Side::Left),
    Rule::Of(Sided::InterSup, Side::Left),
    Rule::Of(Sided::InterNew, Side::Left),
    Rule::UnionVariables,
    Rule::Of(Sided::CompatibleKind, Side::Left),
    Rule::Of(Sided::CompatibleNamed, Side::Left),
    Rule::Of(Sided::CompatibleFunctor, Side::Left),
    Rule::Of(Sided::NotCompatible, Side::Left),
    Rule::UnionDisjoint,
    Rule::Of(Sided::UnionOther, Side::Left),
    Rule::Of(Sided::UnionKind, Side::Left),
    Rule::UnionBoth,
];
