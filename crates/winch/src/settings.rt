// The settings, and the verbs that need no table.
use crate::session::Session;
use script::args::read_all;
use script::first_words::Said;
use script::help::print_verbs;
use script::settings::{set_limit, tell_time};
use script::text::Words;
use script::verbs::Verb;
use script_names::answers::Stop;
use script_names::name_lists::give;
use std::io::Write;

impl<'a, W: Write> Session<'a, W> {
    // `names NAME..`
    pub fn give_names(&mut self, words: Words<'a>) -> Result<(), Stop<'a>> {
        give(self.out, &mut self.desk, words)
    }

    // `limit N`
    pub fn limit_to(&mut self, words: Words<'a>) -> Result<(), Stop<'a>> {
        set_limit(&mut self.desk, words)?;
        Ok(())
    }

    // `time`
    pub fn tell_passed(&mut self) -> Result<(), Stop<'a>> {
        tell_time(self.rt, &mut self.desk)?;
        Ok(())
    }
}
