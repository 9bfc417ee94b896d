// Questions: opened plain or held, worked to the end or in instalments.
use crate::session::{Session, shown};
use model::{Answer, Failure, Instalment, Refusal};
use script::args::{read, read_all};
use script::first_words::Said;
use script::text::Words;
use script::verbs::Verb;
use script::wrong::Why;
use script_names::answers::{Stop, print_break, print_refusal};
use std::io;
use std::io::Write;

// The steps of an instalment, where a question is worked to its end.
const INSTALMENT: u32 = 10000;

impl<'a, W: Write> Session<'a, W> {
    // Opens a question; works it to the end or to the limit, unless it stays open.
    pub fn ask(&mut self, said: Said<'a>) -> Result<(), Stop<'a>> {
        let [left, right] = read_all::<2>(said.verb, said.words)?;
        let budget = if said.is_open {
            0
        } else {
            self.limit().min(INSTALMENT)
        };
        let table = self.table.as_mut_slice();
        let first = if said.verb == Verb::Equal {
            sheafwinch::open_equal(table, said.is_held, left, right, budget)?
        } else {
            sheafwinch::open(table, said.is_held, left, right, budget)?
        };
        if !said.is_open {
            self.settle(first)?;
        } else if is_more(first) {
            writeln!(self.out, "asked")?;
        } else {
            self.tell_instalment(first)?;
        }
        Ok(())
    }

    // Goes on after the first instalment to the end, or to the limit; what has not ended there is given up.
    fn settle(&mut self, first: Instalment) -> io::Result<()> {
        let limit = self.limit();
        let done = self.work_on(first, limit)?;
        self.tell_instalment(done)?;
        if is_more(done) {
            let _ = sheafwinch::abandon(self.table.as_mut_slice());
        }
        Ok(())
    }

    // The steps that a question has at most.
    fn limit(&self) -> u32 {
        if self.desk.is_plain {
            u32::MAX
        } else {
            self.desk.limit.unwrap_or(u32::MAX)
        }
    }

    // Works so many steps in instalments, after the first, and tells how far it is after each but the last.
    fn work_on(&mut self, first: Instalment, limit: u32) -> io::Result<Instalment> {
        let mut done = first;
        let mut left = limit;
        for _ in 1..limit.div_ceil(INSTALMENT) {
            if !is_more(done) {
                break;
            }
            let steps = done.steps;
            eprintln!(self.rt; "steps so far: {steps}")?;
            left = left.saturating_sub(INSTALMENT);
            let next = sheafwinch::work(self.table.as_mut_slice(), left.min(INSTALMENT));
            done = Instalment {
                answer: next.answer,
                steps: steps.wrapping_add(next.steps),
            };
        }
        Ok(done)
    }

    // `work N` or `work`: works an open question, so many steps at most, or all that is left.
    pub fn work(&mut self, words: Words<'a>) -> Result<(), Stop<'a>> {
        let limit = read_budget(words)?;
        let first = sheafwinch::work(self.table.as_mut_slice(), limit.min(INSTALMENT));
        let done = self.work_on(first, limit)?;
        match done.answer {
            Err(r) => self.tell_unfinished(r, done.steps)?,
            Ok(_) => self.tell_instalment(done)?,
        }
        Ok(())
    }

    // Gives a question up.
    pub fn abandon(&mut self, said: Said<'a>) -> Result<(), Stop<'a>> {
        let [] = read_all::<0>(said.verb, said.words)?;
        self.put(|t| sheafwinch::abandon(t))?;
        writeln!(self.out, "abandoned")?;
        Ok(())
    }

    // A refusal of work: of a step, with the steps that were made; of the call, without.
    fn tell_unfinished(&mut self, r: Refusal, steps: u32) -> io::Result<()> {
        print_refusal(self.out, self.desk.names.as_slice(), r)?;
        match r {
            Refusal::NoRoom(_) | Refusal::TooDeep => writeln!(self.out, " steps {steps}"),
            _ => writeln!(self.out),
        }
    }

    // What the steps of an instalment answer, and how many they are: a refusal here is one of a step.
    fn tell_instalment(&mut self, done: Instalment) -> io::Result<()> {
        let names = self.desk.names.as_slice();
        let steps = done.steps;
        match done.answer {
            Ok(Answer::Yes) => write!(self.out, "yes")?,
            Ok(Answer::More) => write!(self.out, "more")?,
            Ok(Answer::Failed(failure)) => print_break(self.out, names, failure)?,
            Err(r) => print_refusal(self.out, names, r)?,
        }
        write!(self.out, " steps {steps}")?;
        if let Ok(Answer::Failed(Failure::Mismatch { sub, sup })) = done.answer {
            self.print_shape(sub)?;
            self.print_shape(sup)?;
        }
        writeln!(self.out)
    }

    // An entry in brackets.
    fn print_shape(&mut self, n: u32) -> io::Result<()> {
        write!(self.out, " [")?;
        shown(&self.desk, &self.table).print_entry(self.out, n)?;
        write!(self.out, "]")
    }
}

// Whether a question has not ended.
fn is_more(done: Instalment) -> bool {
    done.answer == Ok(Answer::More)
}

// How many steps are to be worked.
fn read_budget<'a>(words: Words<'a>) -> Result<u32, Why<'a>> {
    let mut rest = words;
    match (rest.next(), rest.next()) {
        (None, _) => Ok(u32::MAX),
        (Some(word), None) => read(word),
        _ => Err(Why::Count {
            verb: Verb::Work,
            got: words.count(),
        }),
    }
}
