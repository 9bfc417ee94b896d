// The verbs that make an entry, and those that put a mark, a bound or a level.
use crate::session::Session;
use model::Refusal;
use script::args::{read, read_all};
use script::first_words::Said;
use script::text::Words;
use script::verbs::Verb;
use script::wrong::Why;
use script_names::answers::Stop;
use script_names::fields::{Attr, read_fields};
use script_names::labels::{keep_new, label_number};
use std::io::Write;
use table_words::Header;

// As many levels as `level` goes up or down on one line.
const LEVELS_MOST: u32 = 1000;

impl<'a, W: Write> Session<'a, W> {
    // Makes an entry in the table's words and tells its number.
    pub fn make<F: FnOnce(&mut [u32]) -> Result<u32, Refusal>>(
        &mut self,
        make: F,
    ) -> Result<(), Stop<'a>>
        requires { F.IsAlwaysCallable make }
    {
        let n = make(self.table.as_mut_slice())?;
        self.tell_made(n)
    }

    // Puts what a verb says in the table's words; nothing is told when it is done.
    pub fn put<F: FnOnce(&mut [u32]) -> Result<(), Refusal>>(
        &mut self,
        put: F,
    ) -> Result<(), Stop<'a>>
        requires { F.IsAlwaysCallable put }
    {
        put(self.table.as_mut_slice())?;
        Ok(())
    }

    // An entry that was made, and how many there are.
    fn tell_made(&mut self, n: u32) -> Result<(), Stop<'a>> {
        let entries = Header::from(self.table.as_slice()).counts.entries;
        writeln!(self.out, "= {n} {entries}")?;
        Ok(())
    }

    // `attr OPEN DYN N (NAME E OPT)..`
    pub fn make_attrset(&mut self, words: Words<'a>) -> Result<(), Stop<'a>> {
        let attr = Attr::try_from(words)?;
        let fields = read_fields(&self.desk, attr.fields)?;
        let n = sheafwinch::make_attrset(
            self.table.as_mut_slice(),
            fields.as_slice().as_flattened(),
            attr.is_open,
            attr.dynamic,
        )?;
        self.tell_made(n)
    }

    // `named E LABEL`
    pub fn make_named(&mut self, words: Words<'a>) -> Result<(), Stop<'a>> {
        let mut rest = words;
        let (Some(inner), Some(label), None) = (rest.next(), rest.next(), rest.next()) else {
            return Err(Stop::from(Why::Count {
                verb: Verb::Named,
                got: words.count(),
            }));
        };
        let inner = read(inner)?;
        let number = label_number(self.desk.labels.as_slice(), label)?;
        let n = sheafwinch::make_named(self.table.as_mut_slice(), inner, number)?;
        keep_new(&mut self.desk.labels, number, label)?;
        self.tell_made(n)
    }

    // The current level.
    fn level(&self) -> u32 {
        Header::from(self.table.as_slice()).level
    }

    // Tells the current level.
    pub fn tell_level(&mut self) -> Result<(), Stop<'a>> {
        let level = self.level();
        writeln!(self.out, "level {level}")?;
        Ok(())
    }

    // Goes to a level by as many levels up or down; nothing is told when it is done.
    pub fn go_to_level(&mut self, level: u32) -> Result<(), Stop<'a>> {
        let current = self.level();
        let count = current.abs_diff(level);
        if LEVELS_MOST < count {
            return Err(Stop::from(Why::ManyLevels));
        }
        for _ in 0..count {
            let table = self.table.as_mut_slice();
            if current < level {
                sheafwinch::enter(table)?;
            } else {
                sheafwinch::exit(table)?;
            }
        }
        Ok(())
    }
}
