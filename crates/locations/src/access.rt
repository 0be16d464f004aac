// The entries of an authority information access: AccessDescription, a SEQUENCE of a method and a location.
ghost use Rattle.std.specs.Prelude.{◌≡◌};
ghost use Rattle.der.specs.Comparing.{contents_are};
ghost use Rattle.locations.specs.Access.{method_identifier, is_method, uri_by, not_http_by, http_by};

use crate::uris::{is_http, is_uri};
use der::Head;

#[derive(Clone, Copy)]
pub enum Method {
    Ocsp,
    CaIssuers,
}

// Whether the contents of the element are the method's identifier.
fn identifies(s: &[u8], h: Head, method: Method) -> bool
    ensures { result ≡ contents_are s.now h (method_identifier method) }
{
    match method {
        Method::Ocsp => der::contents_are(s, h, b"\x2B\x06\x01\x05\x05\x07\x30\x01"),
        Method::CaIssuers => der::contents_are(s, h, b"\x2B\x06\x01\x05\x05\x07\x30\x02"),
    }
}

// Whether the element is the OBJECT IDENTIFIER of the method.
fn is_method(s: &[u8], h: Head, method: Method) -> bool
    ensures { result ≡ is_method s.now method h }
{
    (h.tag == 6) & identifies(s, h, method)
}

// Whether an entry has the method and a URI as its location: rules 415 and 416 ask for one that does.
pub fn uri_by(s: &[u8], h: Head, method: Method) -> bool
    ensures { result ≡ uri_by s.now method h }
{
    let first = der::first_in(s, h);
    is_method(s, first, method) & is_uri(der::after(s, first, h.end))
}

// Whether an entry has the method and a location that is no HTTP URI: rules 417 and 423 speak of each that does.
pub fn not_http_by(s: &[u8], h: Head, method: Method) -> bool
    ensures { result ≡ not_http_by s.now method h }
{
    let first = der::first_in(s, h);
    is_method(s, first, method) & !is_http(s, der::after(s, first, h.end))
}

// Whether an entry has the method and an HTTP URI as its location: rules 504 and 505 ask for one that does.
pub fn http_by(s: &[u8], h: Head, method: Method) -> bool
    ensures { result ≡ http_by s.now method h }
{
    let first = der::first_in(s, h);
    is_method(s, first, method) & is_http(s, der::after(s, first, h.end))
}
