// The program's help: what it is called with, and a line for each verb.
use std::io;
use std::io::Write;

// All of it.
pub fn print_help<W: Write>(out: &mut W) -> io::Result<()> {
    print_usage(out)?;
    out.write_all(
        b"
A script has one verb to a line; # begins a comment. It has at most 1048576 bytes. A, B, E and V are entry numbers, from 0 on.
An answer is one line; but dump, dumps, dot and help print several, and new, mark, bound, level, setlevel, limit, plain and echo
say nothing when done. A line that is wrong is told with its number and why; it changes nothing, and the next line is run.

",
    )?;
    print_verbs(out)?;
    print_refusals(out)
}

// Every refusal that can be met, and when.
fn print_refusals<W: Write>(out: &mut W) -> io::Result<()> {
    out.write_all(
        b"
A refusal is an answer. With steps N it is one of a step: the N steps before are kept, and the question stays asked. Without, it is one of
the opening or of another call, and changes nothing in the table:
refused 2 BAD NUMBER       an entry, name or record that is not there; a primitive, side, region or operator that is none
refused 3 BUSY             a question is open: work or abandon it first
refused 4 IDLE             no question is open
refused 5 NO ROOM REGION   a region is full
refused 6 TOO DEEP         an entry's spread would pass 1024
refused 7 BAD FIELDS       a field is named twice, or its OPT is not 0 or 1
refused 8 BROKEN WHY       a question in this table has failed, so none is opened held
refused 9 BAD CAPACITY     more than 4096 entries, 16384 fields, or 65536 of the others
refused 10 LEVEL           exit at level 0, or enter at the last level
refused 11 NOT A VARIABLE  bound or setlevel of another entry
refused 12 BAD NAMES       a name is given twice, has more than 255 bytes, or all have more than 65535
",
    )
}

// What the program is called with.
pub fn print_usage<W: Write>(out: &mut W) -> io::Result<()> {
    out.write_all(
        b"usage: winch                run the script that comes by standard input
       winch FILE           run the script of a file; - is standard input
       winch dot FILE       the same, answers on standard error; then its last table as a graph for Graphviz;
                            dot alone: of standard input
       winch incident       run the example: a request that lacks a field, a check that is timed out, a shape
                            that meets its own bound
       winch show incident  print the example's script
       winch help           print this; also --help and -h
",
    )
}

// A line for each verb.
pub fn print_verbs<W: Write>(out: &mut W) -> io::Result<()> {
    print_tables(out)?;
    print_makes(out)?;
    print_questions(out)?;
    print_reads(out)?;
    print_settings(out)
}

// The verbs that start a table or give names.
fn print_tables<W: Write>(out: &mut W) -> io::Result<()> {
    out.write_all(
        b"new                 an empty table of the largest capacities; a script starts with one
start ENTRIES FIELDS BOUNDS VISITED PENDING EQUALS
                    an empty table that takes so many entries, fields, bounds, visited pairs, pending pairs, equals
names NAME..        the name list of the tables after this; names alone: a table's own field names, as without it
",
    )
}

// Those that make an entry, and put marks, bounds and levels.
fn print_makes<W: Write>(out: &mut W) -> io::Result<()> {
    out.write_all(
        b"var                 makes a variable at the current level; answers = NUMBER ENTRIES, as every make
prim P              a primitive: 0 Null, 1 Bool, 2 Int, 3 Float, 4 String, 5 Path, 6 Uri, 7 Number
list E              a list of E
lambda A B          a lambda from A to B
attr OPEN DYN N (NAME E OPT)..
                    an attrset of N fields, at most 4096; OPEN 1: open; DYN: its dynamic type, or -1; OPT 1: optional
named E LABEL       E with a label, a number or a word; a table takes at most 1024 label words, and record and dot
                    show them as numbers, from 4294901760 on
neg E               the negation of E
inter A B           the intersection of A and B
union A B           the union of A and B
mark E              sets the default mark of E
bound V SIDE B      puts B as a bound of the variable V; SIDE 0 lower, 1 upper
enter               one level up
exit                one level down
level N             goes to level N, at most 1000 levels up or down
setlevel V N        sets the level of the variable V
",
    )
}

// Questions.
fn print_questions<W: Write>(out: &mut W) -> io::Result<()> {
    out.write_all(
        b"ask A B             opens the question whether A fits under B, and works it: yes steps N, missing SUB SUP NAME steps N,
                    or mismatch SUB SUP steps N [SUB'S ENTRY] [SUP'S]; every 10000 steps are told on standard error
equal A B           the same, whether A and B fit under each other; answers as ask
held ask A B        the same, refused once a question in this table has failed; also held equal
open ask A B        opens it with budget 0, for work; also open equal, held open ask, held open equal
work N              works the open question N steps more at most; answers as ask, or more steps N; work alone: to its end
abandon             gives the open question up; one that was refused with steps N is open until then
limit N             at most N steps for each ask and equal after this: more, and the question is given up; -1: no limit
plain 1             leaves the limit aside from here on; 0: back
",
    )
}

// The verbs that read.
fn print_reads<W: Write>(out: &mut W) -> io::Result<()> {
    out.write_all(
        b"entry N             entry N as dump shows it
record REGION N     record N of entries, fields, bounds, visited, pending or equals (or 1 to 6), word by word
state               the table's header: idle or asked, level, break, names, and each region's count/capacity
count               how many entries, bounds and visited pairs there are
disjoint A B        1 if A and B are disjoint by the rule of shapes; 0 if that is not known
op OP L R           operator 0 add, 1 sub, 2 mul, 3 div on primitives: result, from the left alone, bound at once; -1 none
name N              name N of the table's list
find NAME           the number of a name
compare I J         how names I and J compare: -1, 0 or 1
check               whether the table is well formed
dump                all of the table: e ENTRY m MARK n NEGATION : KIND .., b VARIABLE SIDE BOUND, v SUB SUP visited, q A B equal;
                    kinds 0 variable, 1 primitive, 2 list, 3 lambda, 4 attrset, 5 named, 6 neg, 7 inter, 8 union
dumps               dump with the visited pairs sorted
dot                 the table as a graph for Graphviz, on standard output
",
    )
}

// Settings and the rest.
fn print_settings<W: Write>(out: &mut W) -> io::Result<()> {
    out.write_all(
        b"echo 1              shows every line before its answer; 0: no more
time                milliseconds of the processor since the last time, on standard error
help                this list
",
    )
}
