// Document 01's table of extensions ("Rules on extensions"), and what its words mean for the rules.
ghost use Rattle.std.specs.Prelude.{◌≡◌};
ghost use Rattle.profiles.specs.Extensions.{mark_in, mark_of, is_unwanted, is_out_of_place};
ghost use Rattle.profiles.specs.Extensions.{crit_if, criticality_of, is_miscritical};

use crate::fields::Profile;

// The table's words: M, opt, no, other. An extension that is in no row is unlisted.
#[derive(Clone, Copy)]
pub enum Mark {
    Mandatory,
    Optional,
    Forbidden,
    Other,
    Unlisted,
}

// Whether an extension is to be critical.
#[derive(Clone, Copy)]
pub enum Criticality {
    Must,
    MustNot,
    NotJudged,
}

// Columns S and O, and the one that document 02 adds, from slot 1 on: a column that is too short does not list a slot.
const SERVER_COLUMN: [Mark; 10] = [
    Mark::Mandatory,
    Mark::Mandatory,
    Mark::Mandatory,
    Mark::Mandatory,
    Mark::Mandatory,
    Mark::Mandatory,
    Mark::Mandatory,
    Mark::Mandatory,
    Mark::Optional,
    Mark::Other,
];

const RESPONDER_COLUMN: [Mark; 10] = [
    Mark::Mandatory,
    Mark::Forbidden,
    Mark::Mandatory,
    Mark::Mandatory,
    Mark::Mandatory,
    Mark::Mandatory,
    Mark::Optional,
    Mark::Mandatory,
    Mark::Optional,
    Mark::Mandatory,
];

const SUBORDINATE_COLUMN: [Mark; 11] = [
    Mark::Mandatory,
    Mark::Mandatory,
    Mark::Mandatory,
    Mark::Mandatory,
    Mark::Mandatory,
    Mark::Mandatory,
    Mark::Optional,
    Mark::Mandatory,
    Mark::Mandatory,
    Mark::Other,
    Mark::Mandatory,
];

// What a column says of a slot.
fn mark_in(column: &[Mark], slot: usize) -> Mark
    ensures { result ≡ mark_in column.now slot }
{
    if slot == 0 {
        return Mark::Unlisted;
    }
    column.get(slot - 1).copied().unwrap_or(Mark::Unlisted)
}

// What a profile's column says of the extension in this slot.
pub fn mark_of(p: Profile, slot: usize) -> Mark
    ensures { result ≡ mark_of p slot }
{
    match p {
        Profile::Domain | Profile::Organization => mark_in(&SERVER_COLUMN, slot),
        Profile::Responder => mark_in(&RESPONDER_COLUMN, slot),
        Profile::Subordinate => mark_in(&SUBORDINATE_COLUMN, slot),
    }
}

// "crit", or none.
fn crit(written: bool) -> Criticality
    ensures { result ≡ crit_if written }
{
    if written {
        return Criticality::Must;
    }
    Criticality::MustNot
}

// Whether the column has "crit".
pub fn criticality_of(p: Profile, slot: usize) -> Criticality
    ensures { result ≡ criticality_of p slot }
{
    match p {
        Profile::Domain => crit((slot == 2) | (slot == 4)),
        Profile::Organization => crit((slot == 2) | (slot == 4)),
        Profile::Responder => crit((slot == 4) | (slot == 5)),
        Profile::Subordinate => crit((slot == 2) | ((slot == 4) | (slot == 11))),
    }
}

// Rules 320+s: whether an extension is critical and must not be, or the reverse.
pub fn is_miscritical(wanted: Criticality, critical: bool) -> bool
    ensures { result ≡ is_miscritical wanted critical }
{
    match wanted {
        Criticality::Must => !critical,
        Criticality::MustNot => critical,
        Criticality::NotJudged => false,
    }
}

// Rule 362: "'no' or not in the table".
pub fn is_unwanted(r: Mark) -> bool
    ensures { result ≡ is_unwanted r }
{
    match r {
        Mark::Mandatory => false,
        Mark::Optional => false,
        Mark::Forbidden => true,
        Mark::Other => false,
        Mark::Unlisted => true,
    }
}

// Rule 363: "'other' or not in the table".
pub fn is_out_of_place(r: Mark) -> bool
    ensures { result ≡ is_out_of_place r }
{
    match r {
        Mark::Mandatory => false,
        Mark::Optional => false,
        Mark::Forbidden => false,
        Mark::Other => true,
        Mark::Unlisted => true,
    }
}
