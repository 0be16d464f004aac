// UUIDs as URIs: what rule 508 looks for.
ghost use Rattle.std.specs.Prelude.{◌≡◌};
ghost use Rattle.octets.specs.Octets.{octets_from};
ghost use Rattle.badges.specs.Uuids.{is_hex_digit, is_as_in, has_form, is_uuid_uri};

use der::Head;

fn is_hex_digit(c: u8) -> bool
    ensures { result ≡ is_hex_digit c }
{
    let small = octets::lower_case(c);
    octets::is_digit(c) | ((b'a' <= small) & (small <= b'f'))
}

// Whether a character is what the form's character f stands for.
fn is_as_in(f: u8, c: u8) -> bool
    ensures { result ≡ is_as_in f c }
{
    if f == b'x' {
        return is_hex_digit(c);
    }
    octets::lower_case(c) == f
}

// Whether the n octets from place `at` on are what the first n of the form stand for.
fn has_form(form: &[u8], s: &[u8], at: usize, n: usize) -> bool
    ensures { result ≡ has_form (octets_from form.now 0 n) (octets_from s.now at n) }
{
    (0..n).all(|k| is_as_in(octets::octet(form, k), octets::octet_past(s, at, k)))
}

// Whether a name is a URI that says a UUID. The length decides for most, before the form is laid out.
pub fn is_uuid_uri(s: &[u8], h: Head) -> bool
    ensures { result ≡ is_uuid_uri s.now h }
{
    let body = h.body;
    let n = octets::minus(h.end, body);
    if locations::is_uri(h) & (n == 45) {
        return has_form(
            b"urn:uuid:xxxxxxxx-xxxx-xxxx-xxxx-xxxxxxxxxxxx",
            s,
            body,
            45,
        );
    }
    false
}
