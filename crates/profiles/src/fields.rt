// The profiles by their numbers, and what they ask of fields, subject and key: one arm a profile.
ghost use Rattle.std.specs.Prelude.{◌≡◌};
ghost use Rattle.profiles.specs.Fields.{asked_of, limit_of, allows_attribute, takes_utf8, takes_curves};

// 1 server, domain validation; 2 server, organization validation; 3 delegated OCSP responder; 4 subordinate CA.
#[derive(Clone, Copy)]
pub enum Profile {
    Domain,
    Organization,
    Responder,
    Subordinate,
}

// The profile that a number asks for.
#[tactic(auto, unfolding(crate::specs::Fields::asked_of))]
pub fn profile_of(number: u8) -> Option<Profile>
    ensures { result ≡ asked_of number }
{
    match number {
        1 => Some(Profile::Domain),
        2 => Some(Profile::Organization),
        3 => Some(Profile::Responder),
        4 => Some(Profile::Subordinate),
        _ => None,
    }
}

// The longest validity: so many days, or so many years by the calendar.
#[derive(Clone, Copy)]
pub enum Limit {
    Days(u16),
    Years(u16),
}

// Rule 111: the longest validity.
pub fn limit_of(p: Profile) -> Limit
    ensures { result ≡ limit_of p }
{
    match p {
        Profile::Domain => Limit::Days(395),
        Profile::Organization => Limit::Days(395),
        Profile::Responder => Limit::Days(45),
        Profile::Subordinate => Limit::Years(10),
    }
}

// Rule 112: whether the subject may have the attribute with this arc below 2.5.4.
pub fn allows_attribute(p: Profile, arc: u8) -> bool
    ensures { result ≡ allows_attribute p arc }
{
    match p {
        Profile::Domain => (arc == 3) | (arc == 6),
        Profile::Organization => (arc == 3) | ((arc == 6) | ((arc == 10) | (arc == 8))),
        Profile::Responder => (arc == 3) | ((arc == 6) | ((arc == 10) | (arc == 11))),
        Profile::Subordinate => (arc == 3) | ((arc == 6) | (arc == 10)),
    }
}

// Rule 117: whether the organization's name may be a UTF8String.
pub fn takes_utf8(p: Profile) -> bool
    ensures { result ≡ takes_utf8 p }
{
    match p {
        Profile::Domain => true,
        Profile::Organization => true,
        Profile::Responder => true,
        Profile::Subordinate => false,
    }
}

// Rule 201: whether a key on an elliptic curve is good.
pub fn takes_curves(p: Profile) -> bool
    ensures { result ≡ takes_curves p }
{
    match p {
        Profile::Domain => true,
        Profile::Organization => true,
        Profile::Responder => false,
        Profile::Subordinate => false,
    }
}
