// The lines that show the Rust's table: ours is held to them by reads.
use crate::line::Line;
use crate::replay::Replay;
use crate::report::{Fault, What};
use crate::rules::Pair;
use crate::tally::add;
use image::format::{ATTRSET, BOUNDS, EQUALS, FIELDS, VISITED};
use std::io;

// How many lines of a dump there were of each region; and the variable and the side of the last bound, and where the next is looked for.
#[derive(Clone, Copy, Default)]
pub struct Dump {
    entries: u32,
    bounds: u32,
    visited: u32,
    equals: u32,
    last_of: (u32, u32),
    next_bound: u32,
}

impl Replay {
    // A line of the table.
    pub fn shown(&mut self, line: &Line) -> io::Result<()> {
        match line.letter {
            b'c' => self.counted(line.number(0), line.number(1), line.number(2)),
            b'L' => self.level(line),
            b'E' => self.entry(line),
            b'B' => self.bound(line),
            b'V' => self.visited(line),
            b'Q' => self.equal(line),
            b'.' => self.end(),
            _ => self.report.fault(Fault::NoLetter),
        }
    }

    // Holds the counts of entries, bounds and visited pairs to the Rust's.
    fn counted(&mut self, entries: u32, bounds: u32, visited: u32) -> io::Result<()> {
        let n = self.table.header().counts;
        self.report.expect(What::Entries, entries, n.entries)?;
        self.report.expect(What::Bounds, bounds, n.bounds)?;
        self.report.expect(What::Visited, visited, n.visited)
    }

    // The first line: the level, and the number of entries.
    fn level(&mut self, line: &Line) -> io::Result<()> {
        self.dump = Dump::default();
        let header = self.table.header();
        let held = [
            (What::Level, 0, header.level),
            (What::Entries, 1, header.counts.entries),
        ];
        self.report.expect_each(line, &held)
    }

    // An entry: flags, negation, kind, x, y, z; of an attrset x is left open, and its fields follow.
    fn entry(&mut self, line: &Line) -> io::Result<()> {
        let e = self.table.entry(self.dump.entries);
        add(&mut self.dump.entries, 1);
        add(&mut self.report.tally.marks, e.flags % 2);
        let held = [
            (What::Flags, 0, e.flags),
            (What::Negation, 1, e.negation),
            (What::Kind, 2, e.kind),
            (What::Y, 4, e.y),
            (What::Z, 5, e.z),
        ];
        self.report.expect_each(line, &held)?;
        if e.kind == ATTRSET {
            self.fields(line.from(6), e.x)
        } else {
            self.report.expect(What::X, line.number(3), e.x)
        }
    }

    // An attrset's fields, three numbers each, from a record on.
    fn fields(&mut self, fields: &[u32], first: u32) -> io::Result<()> {
        for (n, field) in (first..).zip(fields.chunks_exact(3)) {
            self.field(n, field)?;
        }
        Ok(())
    }

    // A field.
    fn field(&mut self, n: u32, field: &[u32]) -> io::Result<()> {
        let record = self.report.there(self.table.record(FIELDS, n))?;
        let told = [What::FieldName, What::FieldEntry, What::FieldOptional];
        for ((what, expected), came) in told.iter().zip(field).zip(&record) {
            self.report.expect(*what, *expected, *came)?;
        }
        Ok(())
    }

    // A bound. The Rust lists them by variable and side, ours stand in the order of adding: the next one of this variable and side.
    fn bound(&mut self, line: &Line) -> io::Result<()> {
        let of = (line.number(0), line.number(1));
        let from = if self.dump.last_of == of {
            self.dump.next_bound
        } else {
            0
        };
        let found = self.table.bound_from(of, from);
        add(&mut self.dump.bounds, 1);
        self.dump.last_of = of;
        self.dump.next_bound = found.map_or(u32::MAX, |(n, _)| n.wrapping_add(1));
        let [_, _, bound] = self.report.there(found.map(|(_, words)| words))?;
        self.report.expect(What::Bound, line.number(2), bound)
    }

    // A visited pair; the rule that worked it is counted.
    fn visited(&mut self, line: &Line) -> io::Result<()> {
        let record = self.table.record(VISITED, self.dump.visited);
        add(&mut self.dump.visited, 1);
        let [sub, sup, _] = self.report.there(record)?;
        let held = [(What::VisitedSub, 0, sub), (What::VisitedSup, 1, sup)];
        self.report.expect_each(line, &held)?;
        Pair::new(&self.table, sub, sup).count(&mut self.report.tally)?;
        Ok(())
    }

    // A pair asked equal.
    fn equal(&mut self, line: &Line) -> io::Result<()> {
        let record = self.table.record(EQUALS, self.dump.equals);
        add(&mut self.dump.equals, 1);
        let [left, right, _] = self.report.there(record)?;
        let held = [(What::EqualLeft, 0, left), (What::EqualRight, 1, right)];
        self.report.expect_each(line, &held)
    }

    // The last line: each region has as many records as there were lines, and nothing is pending; the records of all scripts are counted.
    fn end(&mut self) -> io::Result<()> {
        let dump = self.dump;
        self.counted(dump.entries, dump.bounds, dump.visited)?;
        let n = self.table.header().counts;
        self.report.expect(What::Equals, dump.equals, n.equals)?;
        self.report.expect(What::Pending, 0, n.pending)?;
        add(&mut self.report.tally.bounds, n.bounds);
        add(&mut self.report.tally.visited, n.visited);
        Ok(())
    }
}
