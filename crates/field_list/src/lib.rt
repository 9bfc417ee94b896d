// A lent field list, triples of a name, an entry and optional: whether it is one, and whether its entries are there.
// No test stops early: a list is nearly always right.

#![tactic(auto)]

ghost use Rattle.std.specs.Prelude.{◌≡◌, ◌<◌, ltb};
ghost use Rattle.model.specs.Lists.{all};
ghost use Rattle.model.specs.Format.{word_end};
ghost use Rattle.model.specs.Calls.{field_list, fields_listed};

// A word as a length.
fn wide(x: u32) -> usize
    ensures { (result ≡ x) × (result < word_end) }
{
    x as usize
}

// Whether the words are whole triples with strictly ascending names below the name count, and optional 0 or 1. A name is at
// least `least`, one more than the name before.
pub fn listed(names: u32, fields: &[u32]) -> bool
    ensures { result ≡ fields_listed names fields.now }
{
    let n = fields.len() / image::format::FIELD_WIDTH;
    let mut ok = fields.len() % image::format::FIELD_WIDTH == 0;
    let mut least = 0;
    for i in 0..n {
        let at = image::format::FIELD_WIDTH * i;
        let name = fields[at];
        let optional = fields[at + 2];
        ok = ok & ((least <= wide(name)) & (name < names) & (optional <= image::format::OPTIONAL));
        least = wide(name) + 1;
    }
    ok
}

// Whether every entry of the list is below an entry count.
pub fn known(count: u32, fields: &[u32]) -> bool
    ensures { result ≡ all (λ f. ltb f.entry count) (field_list fields.now) }
{
    let n = fields.len() / image::format::FIELD_WIDTH;
    let mut ok = true;
    for i in 0..n {
        let at = image::format::FIELD_WIDTH * i;
        let entry = fields[at + 1];
        ok = ok & (entry < count);
    }
    ok
}
