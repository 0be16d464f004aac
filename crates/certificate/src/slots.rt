// For each slot of document 01's table the first extension in it, and its value: what rules ask of an extension is read
// once a certificate.
ghost use Rattle.std.specs.Prelude.{◌≡◌, cond, not, ◌&&◌, ◌||◌, eqb};
ghost use Rattle.der.specs.Elements.{is_empty};
ghost use Rattle.der.specs.Members.{members_in};
ghost use Rattle.certificate.specs.Extensions.{seen_before};
ghost use Rattle.certificate.specs.Slots.{first_in_slot, is_good, slot_from, empty_slot, read_slots};
ghost use Rattle.certificate.specs.Workings.Slots.{firsts_of};

use crate::extensions::{extension_of, seen_before, slot_of};
use der::Head;

// Slot 0 is for identifiers that the table does not have; it has 1 to 11.
pub const SLOTS: usize = 12;

// The first Extension in a slot.
#[derive(Clone, Copy)]
pub struct Slot {
    // the Extension; missing at the end of the list if there is none
    pub place: Head,
    pub critical: bool,
    // the OCTET STRING
    pub holder: Head,
    // the first element in it, which is all of it if the value is good
    pub element: Head,
    // the Extension is there, and its value passes 340+s
    pub good: bool,
}

#[derive(Clone, Copy)]
pub struct SlotTable {
    pub each: [Slot; SLOTS],
    // some Extension has an identifier seen before
    pub repeated: bool,
}

// What one walk along the list finds.
#[derive(Clone, Copy)]
struct Firsts {
    each: [Head; SLOTS],
    repeated: bool,
}

// The first of two Extensions that is there.
fn or_else(first: Head, e: Head) -> Head
    ensures { result ≡ cond (is_empty first) e first }
{
    if der::is_none(first) {
        return e;
    }
    first
}

// Whether the Extension e, in a list that starts at `from`, repeats an identifier, where `first` is the first before it
// in its slot. A slot of the table has one identifier; only for others the list is searched.
fn is_repeat(s: &[u8], from: usize, slot: usize, first: Head, e: Head) -> bool
    ensures { result ≡ (not (is_empty first) && (not (eqb slot 0) || seen_before s.now from e)) }
{
    if der::is_none(first) {
        return false;
    }
    if slot == 0 {
        return seen_before(s, from, e);
    }
    true
}

fn first_extensions(s: &[u8], list: Head) -> Firsts
    ensures { result ≡ firsts_of s.now list }
{
    let none = der::missing(list.end);
    let mut firsts = [none; SLOTS];
    let mut repeated = false;
    for e in der::members_in(s, list) {
        let slot = slot_of(s, e);
        let first = firsts[slot];
        repeated = repeated | is_repeat(s, list.body, slot, first, e);
        firsts[slot] = or_else(first, e);
    }
    Firsts {
        each: firsts,
        repeated: repeated,
    }
}

// The first Extension in a slot, of a SEQUENCE OF Extension.
pub fn first_in_slot(s: &[u8], list: Head, slot: usize) -> Head
    ensures { result ≡ first_in_slot s.now list.end (members_in s.now list) slot }
{
    der::members_in(s, list)
        .find(|e| slot_of(s, *e) == slot)
        .unwrap_or(der::missing(list.end))
}

// Whether the value of the Extension h, in an OCTET STRING, passes 340+slot.
fn is_good(s: &[u8], slot: usize, h: Head, holder: Head) -> bool
    ensures { result ≡ is_good s.now slot h holder }
{
    if (slot == 0) | der::is_none(h) {
        return false;
    }
    asn::value_ok(s, slot, holder.body, holder.end)
}

// What is read of the first Extension in a slot.
pub fn slot_from(s: &[u8], slot: usize, h: Head) -> Slot
    ensures { result ≡ slot_from s.now slot h }
{
    let extension = extension_of(s, h);
    let holder = extension.value;
    Slot {
        place: h,
        critical: extension.critical,
        holder: holder,
        element: der::first_in(s, holder),
        good: is_good(s, slot, h, holder),
    }
}

// A slot in which there is none.
fn empty_slot(none: Head) -> Slot
    ensures { result ≡ empty_slot none }
{
    Slot {
        place: none,
        critical: false,
        holder: none,
        element: none,
        good: false,
    }
}

// Of an empty slot nothing is read.
fn slot_or(s: &[u8], slot: usize, h: Head, none: Slot) -> Slot
    ensures { result ≡ cond (is_empty h) none (slot_from s.now slot h) }
{
    if der::is_none(h) {
        return none;
    }
    slot_from(s, slot, h)
}

// Of a SEQUENCE OF Extension.
pub fn read_slots(s: &[u8], list: Head) -> SlotTable
    ensures { result ≡ read_slots s.now list }
{
    let found = first_extensions(s, list);
    let firsts = found.each;
    let none = empty_slot(der::missing(list.end));
    let mut each = [none; SLOTS];
    for slot in 0..SLOTS {
        each[slot] = slot_or(s, slot, firsts[slot], none);
    }
    SlotTable {
        each: each,
        repeated: found.repeated,
    }
}
