// The table's header.
use crate::shown::Shown;
use script_names::answers::print_break;
use std::io;
use std::io::Write;
use table_words::Header;

impl<'a> Shown<'a> {
    // `state`: the header in one line.
    pub fn tell_state<W: Write>(self, out: &mut W) -> io::Result<()> {
        let header = Header::from(self.words);
        let state = if header.is_asked { "asked" } else { "idle" };
        let level = header.level;
        write!(out, "{state} level {level} break ")?;
        match header.broken {
            None => write!(out, "none")?,
            Some(failure) => print_break(out, self.names, failure)?,
        }
        write!(out, " names {} functor {}", header.names, header.functor)?;
        print_regions(out, header)
    }

    // `count`: how many entries, bounds and visited pairs there are.
    pub fn tell_count<W: Write>(self, out: &mut W) -> io::Result<()> {
        let counts = Header::from(self.words).counts;
        writeln!(
            out,
            "entries {} bounds {} visited {}",
            counts.entries, counts.bounds, counts.visited
        )
    }
}

// Each region's count and capacity.
fn print_regions<W: Write>(out: &mut W, header: Header) -> io::Result<()> {
    let n = header.counts;
    let c = header.capacities;
    write!(
        out,
        " entries {}/{} fields {}/{} bounds {}/{}",
        n.entries, c.entries, n.fields, c.fields, n.bounds, c.bounds
    )?;
    writeln!(
        out,
        " visited {}/{} pending {}/{} equals {}/{}",
        n.visited, c.visited, n.pending, c.pending, n.equals, c.equals
    )
}
