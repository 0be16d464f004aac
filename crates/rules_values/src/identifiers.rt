// Rules 401 to 403: both key identifiers, and basic constraints.
ghost use Rattle.std.specs.Prelude.{◌≡◌};
ghost use Rattle.certificate.specs.Issuer.{known, key_identifier_of};
ghost use Rattle.certificate.specs.Standing.{standing_by};
ghost use Rattle.report.specs.Sinks.{SinkPuts};
ghost use Rattle.rules_values.specs.Identifiers.{is_held_by, is_filled, is_twenty, key_identifier_rows};

use certificate::{Issuer, Slot};
use der::Head;
use profiles::Profile;
use report::Sink;

// Whether the authority key id v has a key identifier, and the issuer has the same. `key` is the issuer's OCTET STRING in
// its octets i, if it has a good one.
fn is_held_by(s: &[u8], v: Head, i: &[u8], key: Option<Head>) -> bool
    ensures { result ≡ is_held_by s.now v (key_identifier_of i.now key) }
{
    let Some(identifier) = key else {
        return false;
    };
    let member = der::first_in(s, v);
    (member.tag == 128) & der::same_contents(s, member, i, identifier)
}

fn is_filled(v: Head) -> bool
    ensures { result ≡ is_filled v }
{
    v.body < v.end
}

fn is_twenty(v: Head) -> bool
    ensures { result ≡ is_twenty v }
{
    octets::minus(v.end, v.body) == 20
}

// The slots of the authority key id, of basic constraints and of the subject key id; `i` is read of the issuer's octets.
pub fn identifier_rules(
    sink: &mut Sink,
    p: Profile,
    s: &[u8],
    authority: Slot,
    constraints: Slot,
    subject: Slot,
    issuer: &[u8],
    i: Issuer,
)
    ensures { SinkPuts p
        (key_identifier_rows s.now (known issuer.now i).key (standing_by authority) (standing_by constraints) (standing_by subject))
        sink.old sink.new }
{
    let held = is_held_by(s, authority.element, issuer, i.key_id.ok());
    let filled = is_filled(constraints.element);
    let twenty = is_twenty(subject.element);
    forms::judge_value(sink, p, 401, authority, !held);
    forms::judge_value(sink, p, 402, constraints, filled);
    forms::judge_value(sink, p, 403, subject, !twenty);
}
