// A script that is run, one line after the other: a verb and its words, obeyed in the table's own words and with its names.
use crate::table::Table;
use dumps::shown::Shown;
use image::Capacities;
use script::args::read_all;
use script::desk;
use script::desk::Desk;
use script::first_words::{Said, said_from};
use script::help::print_verbs;
use script::text::{Line, Lines, Words};
use script::verbs::Verb;
use script::wrong::wrong;
use script_names::answers::{Stop, tell_refusal};
use script_names::name_lists::{capacities, count_of, functor_of, make_list};
use std::io;
use std::io::Write;
use table_words::{is_small, largest, size_of};

// What the lines of a script work with: where they are answered, what is kept beside the table, and the table's words.
#[derive(Drop)]
pub struct Session<'a, W> {
    pub rt: &'a HostRuntime,
    pub out: &'a mut W,
    pub desk: Desk<'a>,
    pub table: Table,
}

impl<'a, W: Write> Session<'a, W> {
    // Before any table is started.
    pub fn new(rt: &'a HostRuntime, out: &'a mut W) -> Session<'a, W> {
        Session {
            rt,
            out,
            desk: desk::empty(rt.alloc()),
            table: Table::new(rt.alloc()),
        }
    }

    // Starts the largest table and runs every line.
    pub fn run(&mut self, script: &'a [u8]) -> io::Result<()> {
        let started = self.start(largest(), script);
        self.tell_stop(started)?;
        for line in (Lines { rest: script }) {
            self.run_line(line)?;
        }
        Ok(())
    }

    // Runs a line: shows it if that is asked, and obeys its words.
    fn run_line(&mut self, line: Line<'a>) -> io::Result<()> {
        self.desk.line = self.desk.line.wrapping_add(1);
        if self.desk.echo {
            let mark = if line.text.is_empty() { "" } else { "> " };
            write!(self.out, "{mark}")?;
            self.out.write_all(line.text)?;
            writeln!(self.out)?;
        }
        let obeyed = self.obey(line);
        self.tell_stop(obeyed)
    }

    // Tells why a line was not obeyed to its end, if it was not.
    fn tell_stop(&mut self, obeyed: Result<(), Stop<'a>>) -> io::Result<()> {
        match obeyed {
            Ok(()) => Ok(()),
            Err(Stop::Wrong(why)) => wrong(self.out, &mut self.desk, why),
            Err(Stop::Refused(r)) => tell_refusal(self.out, self.desk.names.as_slice(), r),
            Err(Stop::Io(error)) => Err(error),
        }
    }

    // Obeys the words of a line, if it has any.
    fn obey(&mut self, line: Line<'a>) -> Result<(), Stop<'a>> {
        match said_from(Words::from(line.text))? {
            Some(said) => self.obey_verb(said, line.behind),
            None => Ok(()),
        }
    }

    // Obeys a verb. The names of a table that it starts stand in the lines behind it.
    fn obey_verb(&mut self, said: Said<'a>, behind: &'a [u8]) -> Result<(), Stop<'a>> {
        let verb = said.verb;
        let words = said.words;
        match verb {
            Verb::Start => {
                let args = read_all::<6>(verb, words)?;
                self.start(capacities(args), behind)?;
                let size = self.table.len();
                writeln!(self.out, "started words {size}")?;
                Ok(())
            }
            Verb::New => {
                let [] = read_all::<0>(verb, words)?;
                self.start(largest(), behind)
            }
            Verb::Var => {
                let [] = read_all::<0>(verb, words)?;
                self.make(sheafwinch::make_variable)
            }
            Verb::Prim => {
                let [p] = read_all::<1>(verb, words)?;
                self.make(|t| sheafwinch::make_primitive(t, p))
            }
            Verb::List => {
                let [element] = read_all::<1>(verb, words)?;
                self.make(|t| sheafwinch::make_list(t, element))
            }
            Verb::Lambda => {
                let [param, body] = read_all::<2>(verb, words)?;
                self.make(|t| sheafwinch::make_lambda(t, param, body))
            }
            Verb::Attr => self.make_attrset(words),
            Verb::Named => self.make_named(words),
            Verb::Neg => {
                let [inner] = read_all::<1>(verb, words)?;
                self.make(|t| sheafwinch::make_neg(t, inner))
            }
            Verb::Inter => {
                let [left, right] = read_all::<2>(verb, words)?;
                self.make(|t| sheafwinch::make_inter(t, left, right))
            }
            Verb::Union => {
                let [left, right] = read_all::<2>(verb, words)?;
                self.make(|t| sheafwinch::make_union(t, left, right))
            }
            Verb::Mark => {
                let [n] = read_all::<1>(verb, words)?;
                self.put(|t| sheafwinch::mark(t, n))
            }
            Verb::Bound => {
                let [variable, side, bound] = read_all::<3>(verb, words)?;
                self.put(|t| sheafwinch::put_bound(t, variable, side, bound))
            }
            Verb::SetLevel => {
                let [variable, level] = read_all::<2>(verb, words)?;
                self.put(|t| sheafwinch::set_level(t, variable, level))
            }
            Verb::Level => {
                let [level] = read_all::<1>(verb, words)?;
                self.go_to_level(level)
            }
            Verb::Enter => {
                let [] = read_all::<0>(verb, words)?;
                self.put(sheafwinch::enter)?;
                self.tell_level()
            }
            Verb::Exit => {
                let [] = read_all::<0>(verb, words)?;
                self.put(sheafwinch::exit)?;
                self.tell_level()
            }
            Verb::Ask | Verb::Equal => self.ask(said),
            Verb::Work => self.work(words),
            Verb::Abandon => self.abandon(said),
            Verb::Entry => {
                let [n] = read_all::<1>(verb, words)?;
                self.tell_entry(n)
            }
            Verb::Record => self.tell_record(words),
            Verb::Disjoint => {
                let [left, right] = read_all::<2>(verb, words)?;
                self.tell_disjoint(left, right)
            }
            Verb::Op => {
                let [op, left, right] = read_all::<3>(verb, words)?;
                self.tell_operator(op, left, right)
            }
            Verb::Check => {
                let [] = read_all::<0>(verb, words)?;
                self.tell_check()
            }
            Verb::State => {
                let [] = read_all::<0>(verb, words)?;
                self.show(|table, out| table.tell_state(out))
            }
            Verb::Count => {
                let [] = read_all::<0>(verb, words)?;
                self.show(|table, out| table.tell_count(out))
            }
            Verb::Name => {
                let [n] = read_all::<1>(verb, words)?;
                self.tell_name(n)
            }
            Verb::Find => self.tell_found(words),
            Verb::Compare => {
                let [i, j] = read_all::<2>(verb, words)?;
                self.tell_compared(i, j)
            }
            Verb::Dump => {
                let [] = read_all::<0>(verb, words)?;
                let alloc = self.desk.alloc;
                self.show(|table, out| table.dump(out, alloc, |_| {}))
            }
            Verb::Dumps => {
                let [] = read_all::<0>(verb, words)?;
                let alloc = self.desk.alloc;
                self.show(|table, out| table.dump(out, alloc, |pairs| pairs.sort_unstable()))
            }
            Verb::Dot => {
                let [] = read_all::<0>(verb, words)?;
                Ok(self.draw()?)
            }
            Verb::Names => self.give_names(words),
            Verb::Plain => {
                let [n] = read_all::<1>(verb, words)?;
                self.desk.is_plain = n != 0;
                Ok(())
            }
            Verb::Echo => {
                let [n] = read_all::<1>(verb, words)?;
                self.desk.echo = n != 0;
                Ok(())
            }
            Verb::Limit => self.limit_to(words),
            Verb::Time => {
                let [] = read_all::<0>(verb, words)?;
                self.tell_passed()
            }
            Verb::Help => {
                let [] = read_all::<0>(verb, words)?;
                Ok(print_verbs(self.out)?)
            }
        }
    }

    // Starts a table whose lines are these; one that is refused leaves the table and its names as they are.
    fn start(&mut self, c: Capacities, script: &[u8]) -> Result<(), Stop<'a>> {
        if !is_small(c) {
            return Ok(sheafwinch::start(&mut [], 0, 0, c)?);
        }
        self.desk.names = make_list(&self.desk, script)?;
        self.desk.is_listed = !self.desk.given.is_empty();
        self.desk.labels.clear();
        self.table.resize(size_of(c))?;
        let names = self.desk.names.as_slice();
        sheafwinch::start(
            self.table.as_mut_slice(),
            count_of(names),
            functor_of(names),
            c,
        )?;
        Ok(())
    }

    // Draws the table on standard output.
    pub fn draw(&self) -> io::Result<()> {
        drawing::draw(
            &mut io::writer(self.rt),
            self.desk.names.as_slice(),
            self.table.as_slice(),
        )
    }
}

// The table as it is shown; no method, since what shows it borrows `out` beside it.
pub fn shown<'b>(desk: &'b Desk<'_>, table: &'b Table) -> Shown<'b> {
    Shown {
        labels: desk.labels.as_slice(),
        names: desk.names.as_slice(),
        words: table.as_slice(),
    }
}
