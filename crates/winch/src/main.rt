// The command line of the engine: runs a script, one verb to a line, and prints its answers.

#![tactic(auto)]

mod asking;
mod incident;
mod makes;
mod read_verbs;
mod session;
mod settings;
mod table;

use incident::tell_incident;
use script::help::{print_help, print_usage};
use session::Session;
use std::env::{Env, FillError};
use std::io::{Read, Write};
use std::{fs, io, str};

// A script has at most so many bytes.
const SCRIPT_MOST: usize = 1048576;

// As many bytes of an argument are read.
const ARGUMENT_MOST: usize = 4096;

// The system's number for a name that is too long.
const NAME_TOO_LONG: i32 = 36;

fn main(rt: HostRuntime) -> io::Result<()> {
    match argument(&rt, 1) {
        Ok(None) => run_path(&rt, &mut rt.stdout(), b"-", false),
        Ok(Some(first)) => obey(&rt, first.as_slice()),
        Err(error) => fail(&rt, b"the first argument", error),
    }
}

// An argument, if it is given. It may name a file, and so have any bytes.
fn argument(rt: &HostRuntime, number: usize) -> io::Result<Option<Vec<u8>>> {
    let mut bytes = vec![in rt.alloc(); 0u8; ARGUMENT_MOST]?;
    match rt.arg(number, bytes.as_mut_slice()) {
        Ok(size) => {
            bytes.truncate(size);
            Ok(Some(bytes))
        }
        Err(FillError::NotPresent) => Ok(None),
        Err(FillError::TooLong) => Err(io::Error::from_raw_os_error(NAME_TOO_LONG)),
    }
}

// Obeys the arguments: the first, and what others there are.
fn obey(rt: &HostRuntime, first: &[u8]) -> io::Result<()> {
    let second = argument(rt, 2);
    let Ok(None) = argument(rt, 3) else {
        return print_usage(&mut rt.stderr());
    };
    match second {
        Ok(None) => obey_one(rt, first),
        Ok(Some(second)) => obey_two(rt, first, second.as_slice()),
        Err(error) => fail(rt, b"the second argument", error),
    }
}

// One argument.
fn obey_one(rt: &HostRuntime, word: &[u8]) -> io::Result<()> {
    match word {
        b"help" | b"--help" | b"-h" => print_help(&mut rt.stdout()),
        b"incident" => tell_incident(rt, false),
        b"dot" => run_path(rt, &mut rt.stderr(), b"-", true),
        b"show" => print_usage(&mut rt.stderr()),
        path => run_path(rt, &mut rt.stdout(), path, false),
    }
}

// Two arguments.
fn obey_two(rt: &HostRuntime, first: &[u8], second: &[u8]) -> io::Result<()> {
    match (first, second) {
        (b"dot", path) => run_path(rt, &mut rt.stderr(), path, true),
        (b"show", b"incident") => tell_incident(rt, true),
        _ => print_usage(&mut rt.stderr()),
    }
}

// Tells why the system refused something.
fn fail(rt: &HostRuntime, what: &[u8], error: io::Error) -> io::Result<()> {
    let text = format!(in rt.alloc(); "{error}")?;
    let mut err = rt.stderr();
    write!(err, "winch: ")?;
    err.write_all(what)?;
    let reason = reason(text.as_str());
    writeln!(err, ": {reason}")
}

// An error's text without its number.
fn reason(text: &str) -> &str {
    text.split_once(" (os error ")
        .map_or(text, |(before, _)| before)
}

// Runs the script of a file, or of standard input.
fn run_path<W: Write>(
    rt: &HostRuntime,
    out: &mut W,
    path: &[u8],
    is_drawn: bool,
) -> io::Result<()> {
    if path == b"-".as_slice() {
        return run_input(rt, out, rt.stdin(), b"standard input", is_drawn);
    }
    match open(rt, path) {
        Ok(input) => run_input(rt, out, input, path, is_drawn),
        Err(error) => fail(rt, path, error),
    }
}

// Opens a file. A path is text: one that is not is told as invalid.
fn open(rt: &HostRuntime, path: &[u8]) -> io::Result<fs::File> {
    match str::from_utf8(path) {
        Ok(path) => fs::open(rt, path),
        Err(_) => Err(io::Error::from(io::ErrorKind::InvalidInput)),
    }
}

// Reads a script whole and runs it, unless it is too long.
fn run_input<R: Read + Drop, W: Write>(
    rt: &HostRuntime,
    out: &mut W,
    mut input: R,
    path: &[u8],
    is_drawn: bool,
) -> io::Result<()> {
    let mut script = vec![in rt.alloc(); 0u8; SCRIPT_MOST + 1]?;
    match fill(&mut input, script.as_mut_slice()) {
        Ok(size) => script.truncate(size),
        Err(error) => return fail(rt, path, error),
    }
    if SCRIPT_MOST < script.len() {
        let mut err = rt.stderr();
        write!(err, "winch: ")?;
        err.write_all(path)?;
        return writeln!(err, ": a script has at most {SCRIPT_MOST} bytes");
    }
    run(rt, out, script.as_slice(), is_drawn)
}

// Reads until the bytes are full or the input ends, and tells how many it read. Each read has all the room that is left, since a socket
// or pipe of messages drops what one read has no room for.
fn fill<R: Read>(input: &mut R, bytes: &mut [u8]) -> io::Result<usize> {
    let mut size: usize = 0;
    while size < bytes.len() {
        let n = input.read(&mut bytes[size..])?;
        if n == 0 {
            break;
        }
        size += n;
    }
    Ok(size)
}

// Runs a script; tells how many lines were wrong.
fn run<W: Write>(rt: &HostRuntime, out: &mut W, script: &[u8], is_drawn: bool) -> io::Result<()> {
    let mut session = Session::new(rt, out);
    session.run(script)?;
    if is_drawn {
        session.draw()?;
    }
    match session.desk.wrong {
        0 => Ok(()),
        1 => eprintln!(rt; "winch: 1 line was wrong"),
        count => eprintln!(rt; "winch: {count} lines were wrong"),
    }
}
