// Which rule worked a visited pair, told from its two entries as they stand: the first that fits, in 01's order. Entries keep their
// kinds and components, so that a rule tells the same after the question as at its step.
use crate::rule::{Met, Rule, Side, Sided};
use crate::table::Table;
use crate::tally::Tally;
use image::format::{FLOAT, INT, NUMBER, OPTIONAL};
use model::{Attrset, Entry};
use std::alloc::AllocError;
use table_words::Field;

// A visited pair: the numbers of its entries, and what they say.
#[derive(Clone, Copy)]
pub struct Pair<'a> {
    table: &'a Table,
    sub: u32,
    sup: u32,
    below: Entry,
    above: Entry,
}

impl<'a> Pair<'a> {
    // That of two entries.
    pub fn new(table: &'a Table, sub: u32, sup: u32) -> Pair<'a> {
        Pair {
            table,
            sub,
            sup,
            below: table.stored(sub).into(),
            above: table.stored(sup).into(),
        }
    }

    // Counts its rule, and of attrsets how sup's fields are met.
    pub fn count(&self, tally: &mut Tally) -> Result<(), AllocError> {
        tally.hit(self.rule())?;
        match (self.below, self.above) {
            (Entry::AttrSet(sub), Entry::AttrSet(sup)) => self.count_fields(tally, sub, sup),
            _ => Ok(()),
        }
    }

    // Its rule.
    fn rule(&self) -> Rule {
        match (self.below, self.above) {
            (Entry::Variable { .. }, Entry::Variable { .. }) => Rule::VariableVariable,
            (Entry::Variable { .. }, _) => Rule::VariableConcrete,
            (_, Entry::Variable { .. }) => Rule::ConcreteVariable,
            (Entry::Named { .. }, _) => Rule::Of(Sided::Named, Side::Left),
            (_, Entry::Named { .. }) => Rule::Of(Sided::Named, Side::Right),
            (Entry::Primitive(a), Entry::Primitive(b)) => primitives(a, b),
            (Entry::List(_), Entry::List(_)) => Rule::Lists,
            (Entry::Lambda { .. }, Entry::Lambda { .. }) => Rule::Lambdas,
            (Entry::AttrSet(_), Entry::AttrSet(_)) => Rule::Attrsets,
            (Entry::Neg(_), Entry::Neg(_)) => Rule::NegNeg,
            (_, Entry::Inter(_, _)) => Rule::InterRight,
            (Entry::Union(_, _), _) => Rule::UnionLeft,
            (Entry::Inter(x, y), _) => self.inter_left(x, y),
            _ => self.last(),
        }
    }

    // The rules after those: under a negation, under a union, a functor under a lambda.
    fn last(&self) -> Rule {
        match self.above {
            Entry::Neg(inner) => self.under_neg(inner),
            Entry::Union(x, y) => self.union_right(x, y),
            Entry::Lambda { .. } if self.is_functor() => Rule::FunctorLambda,
            _ => Rule::Mismatch,
        }
    }

    // Of an entry under a negation.
    fn under_neg(&self, inner: u32) -> Rule {
        if self.table.is_disjoint(self.sub, inner) {
            Rule::NegDisjoint
        } else {
            Rule::NegMismatch
        }
    }

    // Of an intersection on the left.
    fn inter_left(&self, x: u32, y: u32) -> Rule {
        match (self.is_chosen(x, y), self.is_chosen(y, x)) {
            (true, true) => Rule::InterBoth,
            (true, false) => Rule::Of(self.inter_one(y), Side::Left),
            (false, true) => Rule::Of(self.inter_one(x), Side::Right),
            (false, false) => Rule::InterNone,
        }
    }

    // Whether a side is chosen.
    fn is_chosen(&self, side: u32, other: u32) -> bool {
        self.table.is_variable(side)
            || (!self.table.holds_variable(other) && self.table.holds_variable(side))
    }

    // With one side chosen, d the other.
    fn inter_one(&self, d: u32) -> Sided {
        if self.table.parts_disjoint(d, self.sup) {
            Sided::InterDisjoint
        } else if self.table.is_member(self.sup, self.negation_of(d)) {
            Sided::InterSup
        } else {
            Sided::InterNew
        }
    }

    // The number of d's negation: the cached one, or what d negates.
    fn negation_of(&self, d: u32) -> u32 {
        let e = self.table.stored(d);
        e.negation.checked_sub(1).unwrap_or(e.x)
    }

    // Of a union on the right.
    fn union_right(&self, x: u32, y: u32) -> Rule {
        match (self.table.is_variable(x), self.table.is_variable(y)) {
            (true, true) => Rule::UnionVariables,
            (true, false) => Rule::Of(self.compatible(y), Side::Right),
            (false, true) => Rule::Of(self.compatible(x), Side::Left),
            (false, false) => self.union_none(x, y),
        }
    }

    // Why sub is compatible with the concrete side, or that it is not.
    fn compatible(&self, side: u32) -> Sided {
        match Entry::from(self.table.stored(side)) {
            Entry::Named { .. } => Sided::CompatibleNamed,
            _ if self.is_like(side) => Sided::CompatibleKind,
            Entry::Lambda { .. } if self.is_functor() => Sided::CompatibleFunctor,
            _ => Sided::NotCompatible,
        }
    }

    // Whether an entry is of sub's kind.
    fn is_like(&self, n: u32) -> bool {
        self.table.stored(self.sub).kind == self.table.stored(n).kind
    }

    // With no variable: which side is disjoint, or else which is of the same kind.
    fn union_none(&self, x: u32, y: u32) -> Rule {
        let far_x = self.table.is_disjoint(self.sub, x);
        let far_y = self.table.is_disjoint(self.sub, y);
        let like_x = self.is_like(x);
        let like_y = self.is_like(y);
        match (far_x, far_y) {
            (true, true) => Rule::UnionDisjoint,
            (false, true) => Rule::Of(Sided::UnionOther, Side::Left),
            (true, false) => Rule::Of(Sided::UnionOther, Side::Right),
            (false, false) if like_x == like_y => Rule::UnionBoth,
            (false, false) if like_x => Rule::Of(Sided::UnionKind, Side::Left),
            (false, false) => Rule::Of(Sided::UnionKind, Side::Right),
        }
    }

    // Whether sub is an attrset with a functor.
    fn is_functor(&self) -> bool {
        match (self.below, self.table.header().functor.checked_sub(1)) {
            (Entry::AttrSet(sub), Some(name)) => self.table.has_field(sub, name),
            _ => false,
        }
    }

    // How sup's fields are met, up to one that is missing, and whether both have a dynamic type.
    fn count_fields(
        &self,
        tally: &mut Tally,
        sub: Attrset,
        sup: Attrset,
    ) -> Result<(), AllocError> {
        for i in 0..sup.count {
            let met = self.met(sub, self.table.field(sup.first.wrapping_add(i)));
            tally.hit(Rule::Field(met))?;
            if met == Met::Missing {
                return Ok(());
            }
        }
        if sub.dynamic.is_some() && sup.dynamic.is_some() {
            tally.hit(Rule::Dynamics)?;
        }
        Ok(())
    }

    // How a field of sup is met in sub.
    fn met(&self, sub: Attrset, field: Field) -> Met {
        if self.table.has_field(sub, field.name) {
            Met::Same
        } else if sub.dynamic.is_some() {
            Met::Dynamic
        } else if sub.is_open {
            Met::Open
        } else if field.optional == OPTIONAL {
            Met::Optional
        } else {
            Met::Missing
        }
    }
}

// Of two primitives.
fn primitives(a: u32, b: u32) -> Rule {
    match (a, b) {
        (INT | FLOAT, NUMBER) => Rule::UnderNumber,
        _ if a == b => Rule::EqualPrimitives,
        _ => Rule::Mismatch,
    }
}
