// Components, bounds, pairs asked equal and the pair that failed, as edges.
use crate::Drawing;
use model::{Attrset, Failure};
use std::io;
use std::io::Write;
use table_words::{Bound, Entry, Equal, Field, Stored, each};

impl<'a, W: Write> Drawing<'a, W> {
    // The components of entry n.
    pub fn draw_components(&mut self, n: u32, entry: Entry) -> io::Result<()> {
        match model::Entry::from(entry) {
            model::Entry::Variable { .. } | model::Entry::Primitive(_) => Ok(()),
            model::Entry::List(element) => self.draw_component(n, element, "element"),
            model::Entry::Lambda { param, body } => {
                self.draw_component(n, param, "param")?;
                self.draw_component(n, body, "body")
            }
            model::Entry::AttrSet(attrset) => self.draw_attrset(n, attrset),
            model::Entry::Named { inner, .. } => self.draw_component(n, inner, "inner"),
            model::Entry::Neg(inner) => self.draw_component(n, inner, "not"),
            model::Entry::Inter(left, right) | model::Entry::Union(left, right) => {
                self.draw_component(n, left, "left")?;
                self.draw_component(n, right, "right")
            }
        }
    }

    // An edge up to its label.
    fn begin(&mut self, from: u32, to: u32) -> io::Result<()> {
        write!(self.out, "  {from} -> {to} [label=\"")
    }

    // A component.
    fn draw_component(&mut self, owner: u32, part: u32, label: &str) -> io::Result<()> {
        self.begin(owner, part)?;
        writeln!(self.out, "{label}\"];")
    }

    // An attrset's fields and its dynamic type, whose arrow is no field's.
    fn draw_attrset(&mut self, owner: u32, attrset: Attrset) -> io::Result<()> {
        let first = attrset.first;
        for n in first..first.saturating_add(attrset.count) {
            self.draw_field(owner, Field::read(self.image, n))?;
        }
        match attrset.dynamic {
            Some(dynamic) => {
                self.begin(owner, dynamic)?;
                writeln!(self.out, "_\", arrowhead=ediamond];")
            }
            None => Ok(()),
        }
    }

    // A field: an optional one has a question mark and an empty arrow.
    fn draw_field(&mut self, owner: u32, field: Field) -> io::Result<()> {
        self.begin(owner, field.entry)?;
        let name = self.name(field.name);
        if field.optional == image::format::OPTIONAL {
            writeln!(self.out, "{name}?\", arrowhead=empty];")
        } else {
            writeln!(self.out, "{name}\"];")
        }
    }

    // Each bound, from what is below to what is above.
    pub fn draw_bounds(&mut self) -> io::Result<()> {
        for Bound {
            variable,
            side,
            bound,
        } in each::<Bound>(self.image) {
            let (below, above, label) = if side == image::format::LOWER {
                (bound, variable, "lower")
            } else {
                (variable, bound, "upper")
            };
            self.begin(below, above)?;
            writeln!(
                self.out,
                "{label}\", style=dashed, color=\"#2f5f8f\", fontcolor=\"#2f5f8f\"];"
            )?;
        }
        Ok(())
    }

    // Each pair asked equal: neither is before the other.
    pub fn draw_equals(&mut self) -> io::Result<()> {
        for Equal { left, right } in each::<Equal>(self.image) {
            self.begin(left, right)?;
            writeln!(self.out, "=\", dir=none, constraint=false];")?;
        }
        Ok(())
    }

    // The pair that failed, where one has, and why.
    pub fn draw_break(&mut self) -> io::Result<()> {
        match self.header.broken {
            Some(Failure::Mismatch { sub, sup }) => {
                self.begin(sub, sup)?;
                write!(self.out, "mismatch")?;
            }
            Some(Failure::MissingField { sub, sup, name }) => {
                self.begin(sub, sup)?;
                let name = self.name(name);
                write!(self.out, "missing {name}")?;
            }
            None => return Ok(()),
        }
        writeln!(
            self.out,
            "\", style=bold, color=\"#c00000\", fontcolor=\"#c00000\", constraint=false];"
        )
    }
}
