// The verbs `limit` and `time`.
use crate::args::read;
use crate::desk::Desk;
use crate::text::{Words, is_negative};
use crate::verbs::Verb;
use crate::wrong::Why;
use std::io;
use std::time::CpuClock;

// `limit N`: at most so many steps for each question after it; -1 for no limit.
pub fn set_limit<'a>(desk: &mut Desk<'_>, words: Words<'a>) -> Result<(), Why<'a>> {
    let mut rest = words;
    let (Some(word), None) = (rest.next(), rest.next()) else {
        return Err(Why::Count {
            verb: Verb::Limit,
            got: words.count(),
        });
    };
    desk.limit = if is_negative(word) {
        None
    } else {
        Some(read(word)?)
    };
    Ok(())
}

// `time`: milliseconds of the processor since the last `time`, to standard error.
pub fn tell_time<R: CpuClock + Eprint>(rt: &R, desk: &mut Desk<'_>) -> io::Result<()> {
    let now = milliseconds(rt);
    eprintln!(rt; "time {} ms", now.wrapping_sub(desk.clock))?;
    desk.clock = now;
    Ok(())
}

// Milliseconds that the processor has worked, in a word; 0 where there is no clock.
fn milliseconds<R: CpuClock>(rt: &R) -> u32 {
    let time = rt.process_cpu_time().map_or(0, |time| time.as_millis());
    (time % 4294967296) as u32
}
