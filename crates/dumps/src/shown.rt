// Entries as a dump shows them: kind number first, as in 01, then what the kind has.
use model::Attrset;
use script_names::labels::print_label;
use std::io;
use std::io::Write;
use table_words::{Entry, Field, Stored};

// A table's words, and what its labels and names are called.
#[derive(Clone, Copy)]
pub struct Shown<'a> {
    pub labels: &'a [&'a [u8]],
    pub names: &'a [u8],
    pub words: &'a [u32],
}

impl<'a> Shown<'a> {
    // An entry's kind and what it has.
    pub fn print_entry<W: Write>(self, out: &mut W, n: u32) -> io::Result<()> {
        let entry = Entry::read(self.words, n);
        let kind = entry.kind;
        write!(out, "{kind}")?;
        match model::Entry::from(entry) {
            model::Entry::Variable { level } => write!(out, " {level}"),
            model::Entry::Primitive(x) | model::Entry::List(x) | model::Entry::Neg(x) => {
                write!(out, " {x}")
            }
            model::Entry::Lambda { param, body } => write!(out, " {param} {body}"),
            model::Entry::AttrSet(attrset) => self.print_attrset(out, attrset),
            model::Entry::Named { inner, label } => {
                write!(out, " {inner} ")?;
                print_label(out, self.labels, label)
            }
            model::Entry::Inter(left, right) | model::Entry::Union(left, right) => {
                write!(out, " {left} {right}")
            }
        }
    }

    // An attrset: whether it is open, its dynamic type, -1 where there is none, its fields.
    fn print_attrset<W: Write>(self, out: &mut W, attrset: Attrset) -> io::Result<()> {
        let Attrset {
            first,
            count,
            is_open,
            dynamic,
        } = attrset;
        let open = u32::from(is_open);
        match dynamic {
            Some(n) => write!(out, " {open} {n} {count}")?,
            None => write!(out, " {open} -1 {count}")?,
        }
        for n in first..first.saturating_add(count) {
            self.print_field(out, Field::read(self.words, n))?;
        }
        Ok(())
    }

    // A field: its name, its entry, whether it is optional.
    fn print_field<W: Write>(self, out: &mut W, field: Field) -> io::Result<()> {
        let Field {
            name,
            entry,
            optional,
        } = field;
        write!(out, " ")?;
        out.write_all(names::show(self.names, name))?;
        write!(out, " {entry} {optional}")
    }

    // A dump's line of an entry: its mark, the number of its negation, -1 where none is cached, and the entry.
    pub fn tell_entry<W: Write>(self, out: &mut W, n: u32) -> io::Result<()> {
        let Entry {
            flags,
            negation,
            ..
        } = Entry::read(self.words, n);
        let mark = u32::from(image::says_mark(flags));
        match negation.checked_sub(1) {
            Some(negation) => write!(out, "e {n} m {mark} n {negation} : ")?,
            None => write!(out, "e {n} m {mark} n -1 : ")?,
        }
        self.print_entry(out, n)?;
        writeln!(out)
    }
}
