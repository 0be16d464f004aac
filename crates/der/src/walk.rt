// The walk over elements within elements, one for refusals 4 and 5: no header but the outermost is read twice.
ghost use Rattle.std.specs.Prelude.{◌≡◌};
ghost use Rattle.der.specs.Soundness.{soundness, stretch_soundness, der_soundness};
ghost use Rattle.der.specs.Workings.Walk.{and_then, in_order, sound_list};
ghost use Rattle.der.specs.Elements.{elements_of};

use crate::contents::{element_ok, is_constructed};
use crate::header::{Head, head_any, head_at};
use crate::order::may_follow;

// What the walk finds wrong. The places are starts: of the first faulty element (refusal 4); where none is faulty, of
// the first SET out of order (refusal 5).
#[derive(Clone, Copy, Debug, PartialEq, Eq)]
pub enum Fault {
    Unsound(usize),
    Unordered(usize),
}

// What two stretches of a walk give together, the first of them first.
fn and_then(a: Result<(), Fault>, b: Result<(), Fault>) -> Result<(), Fault>
    ensures { result ≡ and_then a b }
{
    match (a, b) {
        (Ok(()), _) | (Err(Fault::Unordered(_)), Err(Fault::Unsound(_))) => b,
        _ => a,
    }
}

// What a list says of the element at `at` that holds it.
fn in_order(ascends: bool, at: usize) -> Result<(), Fault>
    ensures { result ≡ in_order ascends at }
{
    if ascends {
        Ok(())
    } else {
        Err(Fault::Unordered(at))
    }
}

// An element and all that it holds, with `depth` levels left for it.
#[cycle(check_element_check_list)]
fn check_element(s: &[u8], h: Head, depth: usize) -> Result<(), Fault>
    ensures { result ≡ soundness s.now (elements_of s.now depth h) }
{
    let at = h.at;
    if depth == 0 {
        return Err(Fault::Unsound(at));
    }
    if element_ok(s, h) {
        if is_constructed(h.tag) {
            return check_list(s, at, h.tag == 49, h.body, h.end, depth - 1);
        }
        return Ok(());
    }
    Err(Fault::Unsound(at))
}

// The list from `body` to `end` that an element at `at` holds, with `depth` levels left for each member. In a SET
// the members have an order.
#[cycle(check_element_check_list)]
fn check_list(
    s: &[u8],
    at: usize,
    set: bool,
    body: usize,
    end: usize,
    depth: usize,
) -> Result<(), Fault>
    ensures { result ≡ sound_list s.now depth at set body end }
{
    let mut i = body;
    let mut from = body;
    let mut ascends = true;
    let mut found = Ok(());
    while i < end {
        let member = head_at(s, i, end);
        let next = member.end;
        let held = check_element(s, member, depth);
        if held.is_err() {
            found = and_then(found, held);
        }
        ascends = ascends & may_follow(s, set, from, i, next);
        from = i;
        i = next;
    }
    and_then(in_order(ascends, at), found)
}

// One outermost element that fills the octets from `at` to `end`, and all that it holds, to a depth of 16: a list
// of that element alone.
pub fn check_stretch(s: &[u8], at: usize, end: usize) -> Result<(), Fault>
    ensures { result ≡ stretch_soundness s.now at end }
{
    if at < end {
        let h = head_any(s, at, end);
        if h.end == end {
            return check_list(s, at, false, at, end, 16);
        }
        return Err(Fault::Unsound(at));
    }
    Err(Fault::Unsound(at))
}

// The same of all the octets.
pub fn check_der(s: &[u8]) -> Result<(), Fault>
    ensures { result ≡ der_soundness s.now }
{
    check_stretch(s, 0, s.len())
}
