// Rules 421 to 424: what a subordinate CA's basic constraints, key usage, access entries and CRL points say.
ghost use Rattle.std.specs.Prelude.{◌≡◌};
ghost use Rattle.certificate.specs.Standing.{standing_by};
ghost use Rattle.report.specs.Sinks.{SinkPuts};
ghost use Rattle.rules_values.specs.Authority.{is_last_authority, authority_rows};

use certificate::Slot;
use der::Head;
use forms::{Items, Kind, Nest};
use locations::Method;
use profiles::Profile;
use report::Sink;

// Whether basic constraints are cA TRUE with path length 0.
fn is_last_authority(s: &[u8], v: Head) -> bool
    ensures { result ≡ is_last_authority s.now v }
{
    der::contents_are(s, v, b"\x01\x01\xFF\x02\x01\x00")
}

// The slots of basic constraints, key usage, authority information access and CRL distribution points.
pub fn authority_rules(
    sink: &mut Sink,
    p: Profile,
    s: &[u8],
    constraints: Slot,
    usage: Slot,
    access: Slot,
    points: Slot,
)
    ensures { SinkPuts p
        (authority_rows s.now (standing_by constraints) (standing_by usage) (standing_by access) (standing_by points))
        sink.old sink.new }
{
    let entries = Items::Members(access.element);
    let names = Items::Within(Nest::Point, points.element);
    let last = is_last_authority(s, constraints.element);
    let signs = usages::signs_for_authority(s, usage.element);
    forms::judge_value(sink, p, 421, constraints, !last);
    forms::judge_value(sink, p, 422, usage, !signs);
    forms::judge_items(
        sink,
        p,
        423,
        access,
        Kind::NotHttpBy(Method::Ocsp),
        s,
        entries,
    );
    forms::judge_items(sink, p, 424, points, Kind::OtherUri, s, names);
}
