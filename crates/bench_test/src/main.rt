// The bench of document 01 through the calls, each line on the table made afresh: what is asked, what is answered in how many steps,
// and what stands in the table then.

#![tactic(auto)]

mod left;
mod repeated_bounds;

use bench_table::{NAMES, make_table, make_with, room};
use left::Left;
use model::{Instalment, Refusal};
use std::io;
use std::io::Write;
use told_in_words::{print_instalment, print_refusal};

// A budget that no question here uses up.
const ALL: u32 = u32::MAX;

// A line's questions: what stands before each, whether it is held, and its pair.
type Line = &'static [(&'static str, bool, u32, u32)];

// B1 to B3; B2 asks again plain, and again held.
const FIRST: [Line; 3] = [
    &[("B1", false, 0, 0)],
    &[
        ("B2", false, 1, 0),
        ("; again plain", false, 1, 0),
        ("; again held", true, 1, 0),
    ],
    &[("B3", false, 1, 6)],
];

// B4 to B12; B6 asks three questions, one after the other.
const OTHERS: [Line; 9] = [
    &[("B4", false, 2, 6)],
    &[("B5", false, 8, 10)],
    &[("B6", false, 0, 4), (";", false, 4, 5), (";", false, 5, 1)],
    &[("B7", false, 3, 7)],
    &[("B8", false, 1, 7)],
    &[("B9", false, 12, 11)],
    &[("B10", false, 13, 11)],
    &[("B11", false, 14, 0)],
    &[("B12", false, 14, 3)],
];

// A functor that meets its own bound.
const FULL: Line = &[("Entry capacity 20:", false, 13, 4), (";", false, 13, 11)];

fn main(rt: HostRuntime) -> io::Result<()> {
    let mut out = rt.stdout();
    writeln!(
        out,
        "Each line of the bench, on its table of 15 entries made afresh"
    )?;
    for line in FIRST {
        print_line(&mut out, line)?;
    }
    print_budgets(&mut out)?;
    for line in OTHERS {
        print_line(&mut out, line)?;
    }
    print_full(&mut out)?;
    repeated_bounds::print_counts(&mut out)
}

// A line on the bench table.
fn print_line<W: Write>(out: &mut W, line: Line) -> io::Result<()> {
    let mut words = room();
    make_table(&mut words);
    print_questions(out, &mut words, line)
}

// A line where the image takes 20 entries.
fn print_full<W: Write>(out: &mut W) -> io::Result<()> {
    let mut words = room();
    let image = &mut words[0..255];
    make_with(image, 20);
    print_questions(out, image, FULL)
}

// Opens a line's questions with the largest budget, tells what is asked and what is answered, and then what they leave.
fn print_questions<W: Write>(out: &mut W, words: &mut [u32], line: Line) -> io::Result<()> {
    for &(label, held, sub, sup) in line {
        write!(out, "{label} ({sub},{sup}): ")?;
        print_opening(out, sheafwinch::open(words, held, sub, sup, ALL))?;
    }
    writeln!(out, "\n    {}", Left(words))
}

// B3 in instalments, the opening among them.
fn print_budgets<W: Write>(out: &mut W) -> io::Result<()> {
    let mut words = room();
    make_table(&mut words);
    write!(out, "B3 with budgets 0, 2, 1: ")?;
    print_opening(out, sheafwinch::open(&mut words, false, 1, 6, 0))?;
    for budget in [2, 1] {
        write!(out, "; ")?;
        print_instalment(out, &NAMES, sheafwinch::work(&mut words, budget))?;
    }
    writeln!(out, "\n    {}", Left(&words))
}

// What an opening answers: a refusal, and no steps; or the first instalment.
fn print_opening<W: Write>(out: &mut W, opening: Result<Instalment, Refusal>) -> io::Result<()> {
    match opening {
        Ok(first) => print_instalment(out, &NAMES, first),
        Err(r) => print_refusal(out, &NAMES, r),
    }
}
