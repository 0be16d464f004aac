// URIs: names of the form [6].
ghost use Rattle.std.specs.Prelude.{◌≡◌};
ghost use Rattle.locations.specs.Uris.{is_uri, is_http, is_other_uri};

use der::Head;

pub fn is_uri(h: Head) -> bool
    ensures { result ≡ is_uri h }
{
    let tag = h.tag;
    tag == 134
}

// Whether a name is a URI that begins with "http://" in any case and goes on.
pub fn is_http(s: &[u8], h: Head) -> bool
    ensures { result ≡ is_http s.now h }
{
    let body = h.body;
    let n = octets::minus(h.end, body);
    is_uri(h) & ((7 < n) & octets::same_ignoring_case(s, body, b"http://", 0, 7))
}

// Whether a name is a URI and no HTTP URI: rule 424 speaks of each that is.
pub fn is_other_uri(s: &[u8], h: Head) -> bool
    ensures { result ≡ is_other_uri s.now h }
{
    is_uri(h) & !is_http(s, h)
}
