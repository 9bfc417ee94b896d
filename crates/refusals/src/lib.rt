// What a refusal tells, in one place for the calls for C and the programs: its number in document 01, and what it carries.

#![tactic(auto)]

ghost use Rattle.std.specs.Prelude.{◌≡◌, ◌≤◌};
ghost use Rattle.model.specs.Told.{number_of, carried as carriedBy};

use model::{Carried, Refusal};

// A refusal's number.
pub fn number(r: Refusal) -> u32
    ensures value { result ≡ number_of r }
    ensures upper_bound { result ≤ 12 }
{
    match r {
        Refusal::BadTable => 1,
        Refusal::BadNumber => 2,
        Refusal::Busy => 3,
        Refusal::Idle => 4,
        Refusal::NoRoom(_) => 5,
        Refusal::TooDeep => 6,
        Refusal::BadFields => 7,
        Refusal::Broken { .. } => 8,
        Refusal::BadCapacity => 9,
        Refusal::Level => 10,
        Refusal::NotAVariable => 11,
        Refusal::BadNames => 12,
    }
}

// What a refusal carries.
pub fn carried(r: Refusal) -> Carried
    ensures { result ≡ carriedBy r }
{
    match r {
        Refusal::NoRoom(region) => Carried::Region(region),
        Refusal::Broken {
            kind,
            sub,
            sup,
            name,
        } => Carried::Break {
            kind,
            sub,
            sup,
            name,
        },
        Refusal::BadTable
        | Refusal::BadNumber
        | Refusal::Busy
        | Refusal::Idle
        | Refusal::TooDeep
        | Refusal::BadFields
        | Refusal::BadCapacity
        | Refusal::Level
        | Refusal::NotAVariable
        | Refusal::BadNames => Carried::Nothing,
    }
}
