// Rules 404 and 405: the bits of key usage.
ghost use Rattle.std.specs.Prelude.{◌≡◌};
ghost use Rattle.profiles.specs.Values.{octet_with};
ghost use Rattle.certificate.specs.Standing.{standing_by};
ghost use Rattle.report.specs.Sinks.{SinkPuts};
ghost use Rattle.rules_values.specs.Usage.{allowed_usage, usage_rows};

use certificate::{KeyKind, Slot};
use profiles::Profile;
use report::Sink;

// The octet with the bits that may be set besides digitalSignature.
fn allowed_usage(p: Profile, kind: KeyKind) -> u8
    ensures { result ≡ octet_with (allowed_usage p kind) }
{
    match kind {
        KeyKind::Rsa => profiles::usage_with_rsa(p),
        KeyKind::EllipticCurve => profiles::usage_with_curve(p),
        KeyKind::Other => 0,
    }
}

// Slot 4 is key usage.
pub fn usage_rules(sink: &mut Sink, p: Profile, s: &[u8], kind: KeyKind, v: Slot)
    ensures { SinkPuts p (usage_rows p s.now kind (standing_by v)) sink.old sink.new }
{
    let signs = usages::signs(s, v.element);
    let other = usages::other_usage(s, v.element, allowed_usage(p, kind));
    forms::judge_value(sink, p, 404, v, !signs);
    forms::judge_value(sink, p, 405, v, other);
}
