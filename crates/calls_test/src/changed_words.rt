// The bench table's image with one word changed: a call refuses it with 1 and leaves every word, or takes it.
// All words past a count and all words of the layout are tried, and others at random.
ghost use Rattle.std.specs.Prelude.{◌<◌, ◌≤◌};

use crate::random_words::{Random, count_refused};
use bench_table::{make_table, room};
use image::format::{LOWER, UPPER};
use model::Refusal;
use std::io;
use std::io::Write;

// What is added to a word; the latter takes one away.
const ADDED: [(u32, &str); 2] = [(1, "one more"), (u32::MAX, "one less")];

// How many changes at random a region gets.
const CHANGES: u32 = 3000;

// Words of the image, from a first to before an end.
#[derive(Clone, Copy)]
struct Span {
    from: usize,
    end: usize,
    ghost some: { from < end },
    ghost inside: { end ≤ 283 },
}

// What is refused.
pub fn print_refused<W: Write>(out: &mut W) -> io::Result<()> {
    let mut words = room();
    make_table(&mut words);
    put_bounds(&mut words);
    let refused = words.get(..282).map_or(0, count_refused);
    writeln!(out, "The image cut to 0 to 282 words, refused: {refused}")?;
    let mut trials = Trials { out, words };
    trials.print_past()?;
    trials.print_layout()?;
    trials.print_random()
}

// The bounds of B6, so that this region has records too.
fn put_bounds(words: &mut [u32]) {
    for (variable, side, bound) in [(4, LOWER, 0), (4, UPPER, 5), (5, LOWER, 0), (5, UPPER, 1)] {
        let _ = sheafwinch::put_bound(words, variable, side, bound);
    }
}

// The image, and the writer that is told of its changes.
#[derive(Drop)]
struct Trials<'a, W> {
    out: &'a mut W,
    words: [u32; 283],
}

impl<W: Write> Trials<'_, W> {
    // The words past a count, all of them: 15 of 24 entries, 5 of 8 fields and 4 of 8 bounds are there, and nothing after them.
    fn print_past(&mut self) -> io::Result<()> {
        self.print_added(
            "Words past a count",
            &[
                Span {
                    from: 132,
                    end: 195,
                },
                Span {
                    from: 210,
                    end: 219,
                },
                Span {
                    from: 231,
                    end: 283,
                },
            ],
        )
    }

    // Offsets, capacities and counts. Zeros are a field record that no attrset owns, and a visited and an equal pair, so that with one
    // more in words 14, 20 or 26, the counts of these, the words are an image still. No other is.
    fn print_layout(&mut self) -> io::Result<()> {
        self.print_added("Header words 9 to 26", &[Span { from: 9, end: 27 }])
    }

    // How many of the words of each span are refused with one added, and with one taken away.
    fn print_added(&mut self, what: &str, spans: &[Span]) -> io::Result<()> {
        for (more, how) in ADDED {
            write!(self.out, "{what}, {how}, refused:")?;
            for span in spans {
                self.print_span(*span, more)?;
            }
            writeln!(self.out)?;
        }
        Ok(())
    }

    // How many of the words are refused with so much added to one, and which are not.
    fn print_span(&mut self, span: Span, more: u32) -> io::Result<()> {
        let mut refused: u32 = 0;
        for at in span.from..span.end {
            if self.is_refused(at, more)? {
                refused += 1;
            } else {
                write!(self.out, " (word {at} taken)")?;
            }
        }
        write!(self.out, " {refused} of {}", span.end - span.from)
    }

    // How many changes at random are refused, the header first, then each region.
    fn print_random(&mut self) -> io::Result<()> {
        write!(
            self.out,
            "Of {CHANGES} changes at random in the header and in each region, refused:"
        )?;
        for span in [
            Span { from: 0, end: 27 },
            Span { from: 27, end: 195 },
            Span {
                from: 195,
                end: 219,
            },
            Span {
                from: 219,
                end: 243,
            },
            Span {
                from: 243,
                end: 259,
            },
            Span {
                from: 259,
                end: 275,
            },
            Span {
                from: 275,
                end: 283,
            },
        ] {
            let refused = self.count_random(span)?;
            write!(self.out, " {refused}")?;
        }
        writeln!(self.out)
    }

    // How many changes at random of these words are refused, with the same numbers at random for each span.
    fn count_random(&mut self, span: Span) -> io::Result<u32> {
        let size = span.end - span.from;
        let mut random = Random(1);
        let mut refused: u32 = 0;
        for _ in 0..CHANGES {
            let at = span.from + random.draw() as usize % size;
            if self.is_refused(at, amount(random.draw()))? {
                refused += 1;
            }
        }
        Ok(refused)
    }

    // Whether the image is refused as none with so much added to a word. What a read and a mark answer must agree, and a mark that is
    // refused must leave every word.
    fn is_refused(&mut self, at: usize, more: u32) -> io::Result<bool> {
        let mut changed = self.words;
        if let Some(word) = changed.get_mut(at) {
            *word = word.wrapping_add(more);
        }
        let read = sheafwinch::entry(&changed, 0).map(|_| ());
        let mut marked = changed;
        if sheafwinch::mark(&mut marked, 0) != read {
            write!(self.out, "\nTHE CALLS DISAGREE\n")?;
        }
        match read {
            Ok(()) => {}
            Err(Refusal::BadTable) if marked == changed => {}
            Err(Refusal::BadTable) => write!(self.out, "\nA REFUSAL CHANGED WORDS\n")?,
            Err(_) => write!(self.out, "\nANOTHER REFUSAL\n")?,
        }
        Ok(read == Err(Refusal::BadTable))
    }
}

// What to add: often little, so that a number stays in its range.
fn amount(x: u32) -> u32 {
    if x % 4 == 0 { x } else { 1 + x / 4 % 15 }
}
