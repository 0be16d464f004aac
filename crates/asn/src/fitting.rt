// The interpreter: the elements of a list against its fields, each by the field and the alternative that take it.
ghost use Rattle.std.specs.Prelude.{◌≡◌, cond, ◌||◌, ◌+◌, ◌/◌, ◌%◌, ◌<◌, get_or, eqb, ltb};
ghost use Rattle.octets.specs.Numbers.{largest};
ghost use Rattle.der.specs.Header.{children_of};
ghost use Rattle.asn.specs.Grammar.{Form, Slots, set_in_order, takes, follows};
ghost use Rattle.asn.specs.Workings.Choosing.{alternative_for, field_for, may_stand, lacking};
ghost use Rattle.asn.specs.Module.{value_of};
ghost use Rattle.asn.specs.Answers.{only_element, certificate_verdict, value_ok};
ghost use Rattle.asn.specs.Workings.Table.{Tables, types, all_forms, slot_rows, rows_say, form_of, form_at, fields_of, slots_at, alternative_at, field_at};

use crate::leaf::{TESTS, passes_test};
use crate::table::{FIELDS, ROOTS, ROWS};
use der::Head;

// What is wrong with an element against a type.
#[derive(Clone, Copy, Debug, PartialEq, Eq)]
pub enum Misfit {
    // no alternative has its identifier
    Stranger,
    // the start of the first element that is not allowed, or of the one that ends early
    Wrong(usize),
}

// The row at place n of a table; past its end every row is 0.
fn row_at(table: &[u16], n: usize) -> usize
    ensures { result ≡ get_or table.now n 0 }
{
    table.get(n).map_or(0, |row| usize::from(*row))
}

fn takes_tag(wanted: usize, tag: u8) -> bool
    ensures { result ≡ takes wanted tag }
{
    (wanted == 0) | (wanted == octets::wide(tag))
}

// The row of the alternative that takes a tag, of the type at row n; 0 if there is none: the 0 that ends a type takes
// any tag.
fn find_alternative(rows: &[u16], n: usize, tag: u8) -> usize
    requires { rows_say form_of Form.none rows.now ≡ all_forms types }
    ensures { alternative_at result ≡ alternative_for (form_at n) tag }
{
    for m in n..rows.len() {
        let row = usize::from(rows[m]);
        if takes_tag(row / 256, tag) {
            return row;
        }
    }
    0
}

// Where an element belongs: the row of the alternative that takes it, 0 if there is none, and the row of the fields
// that the elements after it are held to.
#[derive(Clone, Copy)]
struct Found {
    row: usize,
    next: usize,
}

// The row of the fields that are left when the field at row j has taken an element.
fn row_after(kind: usize, j: usize) -> usize
    requires { j < largest }
    ensures { result ≡ cond (ltb kind 3) (j + 1) j }
{
    if kind < 3 { j + 1 } else { j }
}

// The field, of those from row k on, that takes a tag. None does behind a field that must be there.
fn find_field(rows: &[u16], slots: &[u16], k: usize, tag: u8) -> Found
    requires { Tables rows.now slots.now }
    ensures { field_at result ≡ field_for (slots_at k) tag }
{
    for j in k..slots.len() {
        let field = usize::from(slots[j]);
        let kind = field / 256;
        if kind == 0 {
            break;
        }
        let row = find_alternative(rows, field % 256, tag);
        if !(row == 0) | (kind == 1) {
            return Found {
                row,
                next: row_after(kind, j),
            };
        }
    }
    Found { row: 0, next: k }
}

// What becomes of the contents of the element at `outer` where they end before the fields from row k on.
fn end_before(slots: &[u16], k: usize, outer: usize) -> Result<(), Misfit>
    requires { rows_say fields_of Slots.done slots.now ≡ slot_rows }
    ensures { result ≡ lacking (slots_at k) outer }
{
    for j in k..slots.len() {
        match slots[j] / 256 {
            0 => break,
            1 => return Err(Misfit::Wrong(outer)),
            _ => {}
        }
    }
    Ok(())
}

// Whether the members of h ascend, if its row says that it is a SET. With its own tag it was judged with all of DER.
fn set_in_order(s: &[u8], row: usize, h: Head) -> bool
    ensures { result ≡ (eqb (row / 128 % 2) 0 || set_in_order s.now h) }
{
    if (row / 128 % 2 == 0) | (h.tag == 49) {
        return true;
    }
    der::ascending(s, h.body, h.end)
}

// Whether the element h may stand where the alternative at this row takes it, 0 for none, whatever its members are.
fn may_stand(s: &[u8], row: usize, h: Head) -> bool
    ensures { result ≡ may_stand (alternative_at row) s.now h }
{
    if row == 0 {
        return false;
    }
    let inside = row % 128;
    if inside < TESTS {
        return passes_test(s, inside, h.tag, h.body, octets::minus(h.end, h.body));
    }
    set_in_order(s, row, h)
}

// The elements from `from` to `end`, the contents of the one at `outer`, against the fields from row k on.
fn walk(
    s: &[u8],
    rows: &[u16],
    slots: &[u16],
    k: usize,
    outer: usize,
    from: usize,
    end: usize,
) -> Result<(), Misfit>
    requires { Tables rows.now slots.now }
    ensures { result ≡ follows (slots_at k) s.now outer (children_of s.now from end) }
{
    let mut j = k;
    let mut at = from;
    while at < end {
        let h = der::head_at(s, at, end);
        let found = find_field(rows, slots, j, h.tag);
        let inside = found.row % 128;
        if !may_stand(s, found.row, h) {
            return Err(Misfit::Wrong(h.at));
        }
        if inside >= TESTS {
            walk(s, rows, slots, inside - TESTS, h.at, h.body, h.end)?;
        }
        at = h.end;
        j = found.next;
    }
    end_before(slots, j, outer)
}

// The elements from `at` to `end` as one element, and no more: a Certificate, for 0, or the value of the extension
// that rule 340+s judges.
fn only_element(s: &[u8], slot: usize, at: usize, end: usize) -> Result<(), Misfit>
    ensures { result ≡ only_element (value_of slot) s.now at end }
{
    let rows = ROWS;
    let slots = FIELDS;
    let roots = ROOTS;
    let root = row_at(&roots, slot);
    walk(s, &rows, &slots, root, at, at, end)
}

// Whether the octets, once they are sound DER, are a certificate; if not, the place where they depart from one.
pub fn check_certificate(s: &[u8]) -> Result<(), Misfit>
    ensures { result ≡ certificate_verdict s.now }
{
    only_element(s, 0, 0, s.len())
}

// Whether the octets from `at` to `end` are exactly one sound element of the type that a slot of the table of
// extensions has.
#[tactic(auto, unfolding(crate::specs::Answers::value_ok))]
pub fn value_ok(s: &[u8], slot: usize, at: usize, end: usize) -> bool
    ensures { result ≡ value_ok s.now slot at end }
{
    der::check_stretch(s, at, end).is_ok() && only_element(s, slot, at, end).is_ok()
}
