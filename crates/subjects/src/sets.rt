// The SETs of attributes of a subject name.
ghost use Rattle.std.specs.Prelude.{◌≡◌};
ghost use Rattle.subjects.specs.Sets.{is_crowded};

use der::Head;

// Rule 121: a SET with over one member.
pub fn is_crowded(s: &[u8], h: Head) -> bool
    ensures { result ≡ is_crowded s.now h }
{
    let body = h.body;
    let end = h.end;
    let first = der::head_at(s, body, end);
    (body < end) & (first.end < end)
}
