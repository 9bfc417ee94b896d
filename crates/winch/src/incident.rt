// The customer's incident as a script: a request that lacks a field is resent, a check that is timed out goes on, and a shape that
// meets its own bound ends.
use crate::run;
use std::io;
use std::io::Write;

// Runs the script, or prints it.
pub fn tell_incident(rt: &HostRuntime, is_shown: bool) -> io::Result<()> {
    run_or_print(
        rt,
        is_shown,
        b"echo 1
# 1. A request without its polarisation is resent

start 8 16 8 8 8 0
prim 4                                                              # 0: String
prim 7                                                              # 1: Number
attr 0 -1 4 antenna 0 0 band 0 0 elevation 1 0 polarisation 0 0     # 2: what the station takes
attr 0 -1 3 antenna 0 0 band 0 0 elevation 1 0                      # 3: the request
ask 3 2                # Does the request fit? A field is missing.
ask 3 2                # Resent plain, yes. The Rust says so too: a pair that failed counts as visited.
held ask 3 2           # Resent held, it is refused, and told what failed before.

# 2. A check is timed out

start 16 16 32 32 8 0
prim 4
prim 7
attr 0 -1 4 antenna 0 0 band 0 0 elevation 1 0 polarisation 0 0     # 2: what the station takes
attr 0 -1 4 antenna 0 0 band 0 0 elevation 0 0 polarisation 0 0     # 3: a request whose elevation is text
var                    # 4, 5: relays. What the first takes goes on to the second, and from there to the station.
var
ask 4 5
ask 5 2
open ask 3 4           # Does the request fit the first relay? In instalments:
work 2
state                  # Timed out here. The table keeps the question, and the pairs that are pending.
work 2                 # Later it goes on where it stopped.
work

# The same without a pause: the same answer, and as many steps in all.
start 16 16 32 32 8 0
prim 4
prim 7
attr 0 -1 4 antenna 0 0 band 0 0 elevation 1 0 polarisation 0 0
attr 0 -1 4 antenna 0 0 band 0 0 elevation 0 0 polarisation 0 0
var
var
ask 4 5
ask 5 2
ask 3 4

# The same begun again after the time-out, as the Rust does, in a table half changed: yes, and it does not fit.
start 16 16 32 32 8 0
prim 4
prim 7
attr 0 -1 4 antenna 0 0 band 0 0 elevation 1 0 polarisation 0 0
attr 0 -1 4 antenna 0 0 band 0 0 elevation 0 0 polarisation 0 0
var
var
ask 4 5
ask 5 2
limit 2
ask 3 4
limit -1
ask 3 4

# 3. A functor meets its own bound

start 8 1 8 8 8 0
prim 4                                                              # 0: String
var                                                                 # 1: the type of the functor
attr 0 -1 1 __functor 1 0                                           # 2: the scheduler
lambda 0 0                                                          # 3: a function
ask 2 1                # The scheduler becomes a bound of its own functor.
ask 2 3                # Does it fit a function? It makes entries without end, and the table takes 8. The Rust does not end.
work                   # The question is open still, and its steps are kept.
ask 0 0                # Another question has to wait.
abandon
ask 0 0
",
    )
}

// Runs a script, or prints it.
fn run_or_print(rt: &HostRuntime, is_shown: bool, script: &[u8]) -> io::Result<()> {
    let mut out = rt.stdout();
    if is_shown {
        out.write_all(script)
    } else {
        run(rt, &mut out, script, false)
    }
}
