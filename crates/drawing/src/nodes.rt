// Entries as nodes, each followed by its components.
use crate::Drawing;
use std::io;
use std::io::Write;
use table_words::{Entry, each};

impl<'a, W: Write> Drawing<'a, W> {
    // Each entry, and its components.
    pub fn draw_entries(&mut self) -> io::Result<()> {
        for (n, entry) in (0..self.header.counts.entries).zip(each::<Entry>(self.image)) {
            write!(self.out, "  {n} [label=\"{n} ")?;
            self.print_what(entry)?;
            write!(self.out, "\"")?;
            self.print_look(n, entry)?;
            writeln!(self.out, "];")?;
            self.draw_components(n, entry)?;
        }
        Ok(())
    }

    // What an entry is.
    fn print_what(&mut self, entry: Entry) -> io::Result<()> {
        match model::Entry::from(entry) {
            model::Entry::Variable { level } => write!(self.out, "variable, level {level}"),
            model::Entry::Primitive(p) => {
                let name = primitive(p);
                write!(self.out, "{name}")
            }
            model::Entry::List(_) => write!(self.out, "list"),
            model::Entry::Lambda { .. } => write!(self.out, "lambda"),
            model::Entry::AttrSet(attrset) => {
                let open = if attrset.is_open { ", open" } else { "" };
                write!(self.out, "attrset{open}")
            }
            model::Entry::Named { label, .. } => write!(self.out, "named, label {label}"),
            model::Entry::Neg(_) => write!(self.out, "neg"),
            model::Entry::Inter(..) => write!(self.out, "inter"),
            model::Entry::Union(..) => write!(self.out, "union"),
        }
    }

    // The node's shape, frames and colour.
    fn print_look(&mut self, n: u32, entry: Entry) -> io::Result<()> {
        if entry.kind == image::format::VARIABLE {
            write!(
                self.out,
                ", shape=ellipse, style=filled, fillcolor=\"#fff4d6\""
            )?;
        }
        if image::says_mark(entry.flags) {
            write!(self.out, ", peripheries=2")?;
        }
        if self.is_broken_at(n) {
            write!(
                self.out,
                ", color=\"#c00000\", fontcolor=\"#c00000\", penwidth=2"
            )?;
        }
        Ok(())
    }
}

// A primitive's name.
fn primitive(p: u32) -> &'static str {
    match p {
        0 => "Null",
        1 => "Bool",
        2 => "Int",
        3 => "Float",
        4 => "String",
        5 => "Path",
        6 => "Uri",
        7 => "Number",
        _ => "",
    }
}
