// Runs the lines of the scripts.
use crate::dump::Dump;
use crate::line::Line;
use crate::report::{Fault, Report};
use crate::table::Table;
use crate::tally::{Tally, add};
use std::alloc::Global;
use std::io;
use std::io::Stdout;

// The scripts as far as they were run.
#[derive(Drop)]
pub struct Replay {
    pub report: Report,
    pub table: Table,
    pub dump: Dump,
}

impl Replay {
    // Before the first.
    pub fn new(alloc: Global, out: Stdout) -> io::Result<Replay> {
        Ok(Replay {
            report: Report {
                out,
                tally: Tally::new(alloc),
            },
            table: Table::new(alloc)?,
            dump: Dump::default(),
        })
    }

    // Runs the lines of a block, each read into `line`. A line that is empty is counted, and costs no more.
    pub fn run(&mut self, block: &[u8], line: &mut Line) -> io::Result<()> {
        let mut from = 0;
        for (at, byte) in block.iter().enumerate() {
            if *byte == b'\n' {
                add(&mut self.report.tally.lines, 1);
                if from < at {
                    self.run_line(&block[from..at], line)?;
                }
                from = at + 1;
            }
        }
        if from < block.len() {
            add(&mut self.report.tally.lines, 1);
            self.run_line(&block[from..], line)?;
        }
        Ok(())
    }

    // Runs a line that is not empty.
    fn run_line(&mut self, text: &[u8], line: &mut Line) -> io::Result<()> {
        if line.read(text)? {
            self.act(line)
        } else {
            self.report.fault(Fault::Unreadable)
        }
    }

    // Does what a line says, or holds the table to it. A stored line's letter is read here, or where its call or record stands, once.
    fn act(&mut self, line: &Line) -> io::Result<()> {
        if let Some(made) = self.table.make(line) {
            return self.report.made(line.number(0), made);
        }
        match line.letter {
            b'n' => self.begin(line),
            b'm' => self.mark(line.number(0)),
            b'b' => self.put_bound(line),
            b's' => {
                let set = self.table.set_level(line.number(0), line.number(1));
                self.report.done(set)
            }
            b'+' => self.report.done(self.table.enter()),
            b'-' => self.report.done(self.table.exit()),
            b'a' | b'q' => self.question(line),
            _ => self.shown(line),
        }
    }

    // Starts a script.
    fn begin(&mut self, line: &Line) -> io::Result<()> {
        add(&mut self.report.tally.scripts, 1);
        let started = self.table.start(line.number(0), line.number(1));
        self.report.done(started)
    }

    // Marks an entry, and counts it if it was not marked.
    fn mark(&mut self, n: u32) -> io::Result<()> {
        let unmarked = 1 - self.table.entry(n).flags % 2;
        add(&mut self.report.tally.marks_put, unmarked);
        self.report.done(self.table.mark(n))
    }

    // Puts a bound, and counts it if it is new.
    fn put_bound(&mut self, line: &Line) -> io::Result<()> {
        let before = self.table.header().counts.bounds;
        let put = self
            .table
            .put_bound(line.number(0), line.number(1), line.number(2));
        self.report.done(put)?;
        let after = self.table.header().counts.bounds;
        add(
            &mut self.report.tally.bounds_put,
            after.wrapping_sub(before),
        );
        Ok(())
    }
}
