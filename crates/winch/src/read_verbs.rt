// The verbs that read the table, and the operators.
use crate::session::{Session, shown};
use dumps::records;
use dumps::shown::Shown;
use script::args::{read, read_all};
use script::first_words::Said;
use script::text::{Words, number_in};
use script::verbs::Verb;
use script::wrong::Why;
use script_names::answers::Stop;
use script_names::name_lists;
use std::io::Write;
use std::{fmt, io};
use told_in_words::{NoRegion, Region};

impl<'a, W: Write> Session<'a, W> {
    // Shows what a verb says of the table.
    pub fn show<F: FnOnce(Shown<'_>, &mut W) -> io::Result<()>>(
        &mut self,
        show: F,
    ) -> Result<(), Stop<'a>>
        requires { F.IsAlwaysCallable show }
    {
        show(shown(&self.desk, &self.table), self.out)?;
        Ok(())
    }

    // `name N`
    pub fn tell_name(&mut self, n: u32) -> Result<(), Stop<'a>> {
        name_lists::tell_name(self.out, self.desk.names.as_slice(), n)
    }

    // `find NAME`
    pub fn tell_found(&mut self, words: Words<'a>) -> Result<(), Stop<'a>> {
        name_lists::tell_found(self.out, self.desk.names.as_slice(), words)
    }

    // `compare I J`
    pub fn tell_compared(&mut self, i: u32, j: u32) -> Result<(), Stop<'a>> {
        name_lists::tell_compared(self.out, self.desk.names.as_slice(), i, j)
    }

    // `entry N`: an entry, as a dump shows it.
    pub fn tell_entry(&mut self, n: u32) -> Result<(), Stop<'a>> {
        sheafwinch::entry(self.table.as_slice(), n)?;
        shown(&self.desk, &self.table).tell_entry(self.out, n)?;
        Ok(())
    }

    // `record REGION N`: a record as it stands.
    pub fn tell_record(&mut self, words: Words<'a>) -> Result<(), Stop<'a>> {
        let mut rest = words;
        let (Some(region), Some(n), None) = (rest.next(), rest.next(), rest.next()) else {
            return Err(Stop::from(Why::Count {
                verb: Verb::Record,
                got: words.count(),
            }));
        };
        let region = read_region(region)?;
        let n = read(n)?;
        let record = sheafwinch::record(self.table.as_slice(), region, n)?;
        records::tell_record(self.out, n, record)?;
        Ok(())
    }

    // `disjoint A B`
    pub fn tell_disjoint(&mut self, left: u32, right: u32) -> Result<(), Stop<'a>> {
        let answer = u32::from(sheafwinch::disjoint(self.table.as_slice(), left, right)?);
        writeln!(self.out, "disjoint {answer}")?;
        Ok(())
    }

    // `check`
    pub fn tell_check(&mut self) -> Result<(), Stop<'a>> {
        let answer = if formed::check(self.table.as_slice()) {
            "well formed"
        } else {
            "not well formed"
        };
        writeln!(self.out, "{answer}")?;
        Ok(())
    }

    // `op OP L R`: the result, what is known from the left, what is bound at once.
    pub fn tell_operator(&mut self, op: u32, left: u32, right: u32) -> Result<(), Stop<'a>> {
        let whole = Known(operators::resolve(op, left, right)?);
        let from_left = Known(operators::from_left(op, left)?);
        let at_once = Known(operators::at_once(op)?);
        writeln!(self.out, "op {whole} {from_left} {at_once}")?;
        Ok(())
    }
}

// A region, by its name or its number.
fn read_region<'a>(word: &'a [u8]) -> Result<u32, Why<'a>> {
    match Region::try_from(word) {
        Ok(region) => Ok(region as u32),
        Err(NoRegion) => number_in(word).map_err(|_| Why::NoRegion(word)),
    }
}

// A primitive, shown as -1 where there is none.
#[derive(Clone, Copy)]
struct Known(Option<u32>);

impl fmt::Display for Known {
    fn fmt<W: fmt::Write>(&self, f: &mut fmt::Formatter<W>) -> fmt::Result {
        match self.0 {
            Some(p) => write!(f, "{p}"),
            None => write!(f, "-1"),
        }
    }
}
