// What the calls build, printed: the words of a table, what full regions and too deep an entry answer, and what words that are no
// image answer.

#![tactic(auto)]

mod answers;
mod bench_words;
mod changed_words;
mod depth;
mod full_questions;
mod full_regions;
mod random_words;
mod script;

use std::io;

fn main(rt: HostRuntime) -> io::Result<()> {
    let mut out = rt.stdout();
    let alloc = rt.alloc();
    bench_words::print_table(&mut out)?;
    full_regions::print_lines(&mut out, alloc)?;
    full_questions::print_lines(&mut out, alloc)?;
    depth::print_lines(&mut out, alloc)?;
    random_words::print_counts(&mut out)?;
    changed_words::print_refused(&mut out)
}
