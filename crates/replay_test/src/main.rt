// Replays what the Rust of tix was asked: scripts of generated questions, with its answers, from standard input. Each is run through
// the calls of crate sheafwinch, a question in several instalments, and every answer, step count and record is held to the Rust's.
// tools/oracle/README.md says how the lines are made and what each means. They come by standard input, from the file `stdin` beside
// src/, since the gate feeds that to a program on a clean clone: it needs no path, no argument and no crate that opens files.

#![tactic(auto)]

mod dump;
mod line;
mod question;
mod replay;
mod report;
mod rule;
mod rules;
mod table;
mod tally;

use line::Line;
use replay::Replay;
use std::io;
use std::io::Read;

// More blocks than the file has.
const BLOCKS: u32 = 100;

// A block's bytes. No line goes over a block's end: empty lines fill a block up.
const BLOCK_BYTES: u64 = 65536;

fn main(rt: HostRuntime) -> io::Result<()> {
    let mut input = rt.stdin();
    let mut replay = Replay::new(rt.alloc(), rt.stdout())?;
    let mut line = Line::new(rt.alloc());
    let mut block = Vec::new(rt.alloc());
    for _ in 0..BLOCKS {
        block.clear();
        input.by_ref().take(BLOCK_BYTES).read_to_end(&mut block)?;
        replay.run(&block, &mut line)?;
    }
    replay.report.print_tally()
}
