// A table as a graph for Graphviz, in its language DOT, on standard output. Entries are nodes, variables round and concrete entries
// boxes, twice framed where they have the default mark; components are edges, bounds dashed ones, pairs asked equal those without an
// arrow; the pair that failed is red. A field is called by its name, where the list has as many names as the image.

#![tactic(auto)]

mod edges;
mod name;
mod nodes;

use model::Failure;
use name::Name;
use std::io;
use std::io::Write;
use table_words::Header;

// Draws the table in the image: a graph of every entry, component, bound and equal pair, or one that says that it is no table.
pub fn draw<W: Write>(out: &mut W, list: &[u8], image: &[u32]) -> io::Result<()> {
    writeln!(out, "digraph table {{")?;
    if formed::check(image) {
        let header = Header::from(image);
        let list = if names_fit(list, header) { list } else { b"" };
        let mut drawing = Drawing {
            out,
            list,
            image,
            header,
        };
        drawing.draw_table()?;
    } else {
        writeln!(out, "  label=\"BAD TABLE: the image is not well formed\";")?;
    }
    writeln!(out, "}}")
}

// Whether the list is well formed and has as many names as the image.
fn names_fit(list: &[u8], header: Header) -> bool {
    names::count(list) == Ok(header.names)
}

// A well formed image, and where it is drawn; with the list's names, where they are the image's, else with no list, so by number.
#[derive(Drop)]
struct Drawing<'a, W> {
    out: &'a mut W,
    list: &'a [u8],
    image: &'a [u32],
    header: Header,
}

impl<'a, W: Write> Drawing<'a, W> {
    fn draw_table(&mut self) -> io::Result<()> {
        self.draw_label()?;
        self.draw_entries()?;
        self.draw_bounds()?;
        self.draw_equals()?;
        self.draw_break()
    }

    // How the graph looks, and its label: whether a question is asked, whether one has failed, the level, how many records each region has.
    fn draw_label(&mut self) -> io::Result<()> {
        write!(
            self.out,
            "  graph [rankdir=TB, nodesep=0.4, ranksep=0.6, fontname=\"sans-serif\", fontsize=11];
  node [shape=box, style=\"rounded,filled\", fillcolor=\"#e8f0f8\", fontname=\"sans-serif\", fontsize=12];
  edge [fontname=\"sans-serif\", fontsize=10];
  label=\""
        )?;
        let state = if self.header.is_asked {
            "asked"
        } else {
            "idle"
        };
        let broken = if self.header.broken.is_some() {
            ", broken"
        } else {
            ""
        };
        let level = self.header.level;
        write!(self.out, "{state}{broken}, level {level}")?;
        let counts = self.header.counts;
        writeln!(
            self.out,
            "\\nentries {}, fields {}, bounds {}, visited {}, pending {}, equals {}\";",
            counts.entries,
            counts.fields,
            counts.bounds,
            counts.visited,
            counts.pending,
            counts.equals
        )
    }

    // A field's name.
    fn name(&self, number: u32) -> Name<'a> {
        Name {
            list: self.list,
            number,
        }
    }

    // Whether entry n is one of the pair that failed.
    fn is_broken_at(&self, n: u32) -> bool {
        match self.header.broken {
            Some(Failure::Mismatch { sub, sup } | Failure::MissingField { sub, sup, .. }) => {
                sub == n || sup == n
            }
            None => false,
        }
    }
}
