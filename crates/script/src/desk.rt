// What the program keeps beside the table: settings, label words, and the names of the list that was given.
ghost use Rattle.std.specs.Prelude.{◌≡◌, [], None};

use std::alloc::Global;

// Words, names and labels stand in the script, which lives longer.
#[derive(Drop)]
pub struct Desk<'a> {
    // What the lists below are made with.
    pub alloc: Global,

    // The line that is run, and how many were wrong.
    pub line: u32,
    pub wrong: u32,

    // The limit that questions have, if they have one; whether it is left aside.
    pub limit: Option<u32>,
    pub is_plain: bool,

    // Whether lines are shown, and the clock at the last `time`.
    pub echo: bool,
    pub clock: u32,

    // The names that were given, in their order; none where a table has its own field names.
    pub given: Vec<&'a [u8]>,

    // The table's name list, whether it is of names that were given, and the table's label words.
    pub names: Vec<u8>,
    pub is_listed: bool,
    pub labels: Vec<&'a [u8]>,
}

// The desk, empty.
pub fn empty<'a>(alloc: Global) -> Desk<'a>
    ensures lines { (result.line ≡ 0) × (result.wrong ≡ 0) }
    ensures limit { result.limit ≡ None }
    ensures given { result.given.items ≡ [] }
    ensures names { result.names.items ≡ [] }
    ensures labels { result.labels.items ≡ [] }
{
    Desk {
        alloc,
        line: 0,
        wrong: 0,
        limit: None,
        is_plain: false,
        echo: false,
        clock: 0,
        given: Vec::new(alloc),
        names: Vec::new(alloc),
        is_listed: false,
        labels: Vec::new(alloc),
    }
}
