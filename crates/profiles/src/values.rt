// What the profiles ask of the values of extensions: one arm a profile.
ghost use Rattle.std.specs.Prelude.{◌≡◌};
ghost use Rattle.profiles.specs.Values.{usage_with_rsa, usage_with_curve, octet_with, wanted_purpose, allows_purpose, wants_forum};

use crate::fields::Profile;

// Rule 405: the octet of key usage with the bits that may be set besides digitalSignature.
pub fn usage_with_rsa(p: Profile) -> u8
    ensures { result ≡ octet_with (usage_with_rsa p) }
{
    match p {
        Profile::Domain => 0x20,
        Profile::Organization => 0x20,
        Profile::Responder => 0,
        Profile::Subordinate => 0,
    }
}

pub fn usage_with_curve(p: Profile) -> u8
    ensures { result ≡ octet_with (usage_with_curve p) }
{
    match p {
        Profile::Domain => 0x08,
        Profile::Organization => 0x08,
        Profile::Responder => 0,
        Profile::Subordinate => 0,
    }
}

// Rule 407: the purpose that must be there, by its arc below id-kp.
pub fn wanted_purpose(p: Profile) -> u8
    ensures { result ≡ wanted_purpose p }
{
    match p {
        Profile::Domain => 1,
        Profile::Organization => 1,
        Profile::Responder => 9,
        Profile::Subordinate => 1,
    }
}

// Rule 408: whether a purpose is no other one.
pub fn allows_purpose(p: Profile, arc: u8) -> bool
    ensures { result ≡ allows_purpose p arc }
{
    match p {
        Profile::Domain => (arc == 1) | (arc == 2),
        Profile::Organization => (arc == 1) | (arc == 2),
        Profile::Responder => arc == 9,
        Profile::Subordinate => true,
    }
}

// Rule 410: whether a policy of the CA/Browser Forum, by its last arc, is one of which one must be there.
pub fn wants_forum(p: Profile, arc: u8) -> bool
    ensures { result ≡ wants_forum p arc }
{
    match p {
        Profile::Domain => arc == 1,
        Profile::Organization => arc == 2,
        Profile::Responder => false,
        Profile::Subordinate => (arc == 1) | (arc == 2),
    }
}
