// CRL distribution points: rules 418 and 419.
ghost use Rattle.std.specs.Prelude.{◌≡◌};
ghost use Rattle.locations.specs.Points.{is_restriction, is_restricted, full_name_of};

use der::Head;

fn is_restriction(h: Head) -> bool
    ensures { result ≡ is_restriction h }
{
    let tag = h.tag;
    (tag == 129) | (tag == 162)
}

// Rule 419: a point with reasons or cRLIssuer.
pub fn restricted(s: &[u8], point: Head) -> bool
    ensures { result ≡ is_restricted s.now point }
{
    der::members_in(s, point).any(is_restriction)
}

// The full name of a point, whose members are names, or an element that is not sound and holds nothing: rule 418 looks
// for an HTTP URI in it.
pub fn full_name_of(s: &[u8], point: Head) -> Head
    ensures { result ≡ full_name_of s.now point }
{
    let name = der::first_in(s, point);
    let full = der::first_in(s, name);
    if (name.tag == 160) & (full.tag == 160) {
        return full;
    }
    der::missing(point.end)
}
