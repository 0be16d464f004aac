// Rules 201 to 203: the key's algorithm.
ghost use Rattle.std.specs.Prelude.{◌≡◌};
ghost use Rattle.report.specs.Sinks.{SinkPuts};
ghost use Rattle.rules_key.specs.Algorithm.{allows_kind, lacks_null, lacks_curve, algorithm_rows};

use crate::parameters::{is_curve, is_null};
use certificate::{Key, KeyKind};
use facts::{is_elliptic_curve, is_rsa};
use profiles::Profile;
use report::Sink;

fn allows_kind(p: Profile, kind: KeyKind) -> bool
    ensures { result ≡ allows_kind p kind }
{
    is_rsa(kind) | (profiles::takes_curves(p) & is_elliptic_curve(kind))
}

// Rule 202 is broken.
fn lacks_null(s: &[u8], k: Key) -> bool
    ensures { result ≡ lacks_null s.now k }
{
    let kind = k.kind;
    is_rsa(kind) & !is_null(s, k.parameters)
}

// Rule 203 is broken.
fn lacks_curve(s: &[u8], k: Key) -> bool
    ensures { result ≡ lacks_curve s.now k }
{
    let kind = k.kind;
    is_elliptic_curve(kind) & !is_curve(s, k.parameters)
}

pub fn algorithm_rules(sink: &mut Sink, p: Profile, s: &[u8], k: Key)
    ensures { SinkPuts p (algorithm_rows p s.now k) sink.old sink.new }
{
    let kind = k.kind;
    let other = !allows_kind(p, kind);
    let null = lacks_null(s, k);
    let curve = lacks_curve(s, k);
    sink.judge(p, 201, other, k.algorithm);
    sink.judge(p, 202, null, k.algorithm);
    sink.judge(p, 203, curve, k.algorithm);
}
