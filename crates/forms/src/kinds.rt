// What rules say of one item, without a word on walks or reports.
ghost use Rattle.std.specs.Prelude.{◌≡◌};
ghost use Rattle.forms.specs.Kinds.{of_kind};

use crate::extensions::{Repeats, is_out_of_place_in, is_repeat, is_unwanted_in};
use der::Head;
use locations::Method;
use profiles::Profile;

// What is asked of an item. A kind and no closure: each call would have to prove that its closure computes what its rule
// says, where 29 calls share the proof of 23 kinds (`is_of_kind`).
#[derive(Clone, Copy)]
pub enum Kind {
    // an attribute with this arc below 2.5.4 (113, 114, 116, 118, 120)
    Attribute(u8),
    // an attribute that the profile does not allow (112)
    Foreign,
    // a C, O or ST that says another text (115, 117, 119), a CN that is no subordinate CA's (122)
    OtherCountry,
    OtherOrganization,
    OtherState,
    OtherAuthority,
    // a SET with over one member (121)
    Crowded,
    // an extension with an identifier seen before (361), one that has no business here (362), a critical one that the
    // table does not judge (363)
    Repeated(Repeats),
    Unwanted(Repeats),
    OutOfPlace(Repeats),
    // the purpose that the profile wants (407), one that it does not allow (408)
    WantedPurpose,
    OtherPurpose,
    // a policy below the federal arc (409), the profile's policy of the CA/Browser Forum (410), another qualifier (411)
    FederalPolicy,
    ForumPolicy,
    OtherQualifier,
    // a name that is no dNSName (412), a dNSName with an underscore (413), one that is no host name (414)
    NotHost,
    Underscore,
    NoHostName,
    // an entry with this method and a URI (415, 416), one that is not an HTTP URI (417, 423)
    UriBy(Method),
    NotHttpBy(Method),
    // an HTTP URI (418), another URI (424), a point with reasons or cRLIssuer (419)
    HttpUri,
    OtherUri,
    Restricted,
}

// Whether an item is of this kind.
pub fn is_of_kind(kind: Kind, p: Profile, s: &[u8], h: Head) -> bool
    ensures { result ≡ of_kind kind p s.now h }
{
    match kind {
        Kind::Attribute(arc) => subjects::arc_of(s, h) == arc,
        Kind::Foreign => !profiles::allows_attribute(p, subjects::arc_of(s, h)),
        Kind::OtherCountry => subjects::is_other_country(s, h),
        Kind::OtherOrganization => subjects::is_other_organization(s, h, profiles::takes_utf8(p)),
        Kind::OtherState => subjects::is_other_state(s, h),
        Kind::OtherAuthority => subjects::is_other_authority(s, h),
        Kind::Crowded => subjects::is_crowded(s, h),
        Kind::Repeated(repeats) => is_repeat(repeats, s, h),
        Kind::Unwanted(repeats) => is_unwanted_in(p, repeats, s, h),
        Kind::OutOfPlace(repeats) => is_out_of_place_in(p, repeats, s, h),
        Kind::WantedPurpose => usages::purpose_arc(s, h) == profiles::wanted_purpose(p),
        Kind::OtherPurpose => !profiles::allows_purpose(p, usages::purpose_arc(s, h)),
        Kind::FederalPolicy => policies::is_federal(s, h),
        Kind::ForumPolicy => profiles::wants_forum(p, policies::forum_arc(s, h)),
        Kind::OtherQualifier => policies::other_qualifier(s, h),
        Kind::NotHost => !hosts::is_dns_name(h),
        Kind::Underscore => hosts::has_underscore(s, h),
        Kind::NoHostName => hosts::no_host(s, h),
        Kind::UriBy(method) => locations::uri_by(s, h, method),
        Kind::NotHttpBy(method) => locations::not_http_by(s, h, method),
        Kind::HttpUri => locations::is_http(s, h),
        Kind::OtherUri => locations::is_other_uri(s, h),
        Kind::Restricted => locations::restricted(s, h),
    }
}
