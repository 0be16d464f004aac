// What a PolicyInformation names, and its qualifiers.
ghost use Rattle.std.specs.Prelude.{◌≡◌};
ghost use Rattle.policies.specs.Policies.{policy_below, federal_policy_arc, forum_arc, qualifiers_of, other_qualifier};

use der::Head;

// Whether a PolicyInformation names a policy below the arc of rule 409.
pub fn is_federal(s: &[u8], h: Head) -> bool
    ensures { result ≡ policy_below s.now h }
{
    let policy = der::first_in(s, h);
    let body = policy.body;
    let begins = octets::equals(s, body, 9, b"\x60\x86\x48\x01\x65\x03\x02\x01\x03");
    (9 < octets::minus(policy.end, body)) & begins
}

// The last arc of a PolicyInformation's policy, if it is one right below the arc of rule 409, else 0: rule 503 has a list of
// them for each profile.
pub fn federal_arc(s: &[u8], h: Head) -> u8
    ensures { result ≡ federal_policy_arc s.now h }
{
    let policy = der::first_in(s, h);
    der::arc_below(s, policy, b"\x60\x86\x48\x01\x65\x03\x02\x01\x03")
}

// The last arc of a PolicyInformation's policy, if it is one of the CA/Browser Forum's that rule 410 asks for, else 0.
pub fn forum_arc(s: &[u8], h: Head) -> u8
    ensures { result ≡ forum_arc s.now h }
{
    der::arc_below(s, der::first_in(s, h), b"\x67\x81\x0c\x01\x02")
}

// The list of qualifiers of a PolicyInformation, or an element that is not sound and holds nothing.
pub fn qualifiers_of(s: &[u8], policy: Head) -> Head
    ensures { result ≡ qualifiers_of s.now policy }
{
    der::second_in(s, policy)
}

// Whether the PolicyQualifierInfo h is one that rule 411 speaks of.
pub fn other_qualifier(s: &[u8], h: Head) -> bool
    ensures { result ≡ other_qualifier s.now h }
{
    !der::first_is(s, h, b"\x2b\x06\x01\x05\x05\x07\x02\x01")
}
