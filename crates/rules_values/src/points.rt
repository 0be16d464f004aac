// Rules 418 and 419: CRL distribution points.
ghost use Rattle.certificate.specs.Standing.{standing_by};
ghost use Rattle.report.specs.Sinks.{SinkPuts};
ghost use Rattle.rules_values.specs.Points.{point_rows};

use certificate::Slot;
use forms::{Items, Kind, Nest};
use profiles::Profile;
use report::Sink;

// Slot 9 is CRL distribution points.
pub fn point_rules(sink: &mut Sink, p: Profile, s: &[u8], v: Slot)
    ensures { SinkPuts p (point_rows s.now (standing_by v)) sink.old sink.new }
{
    let points = Items::Members(v.element);
    let names = Items::Within(Nest::Point, v.element);
    let lacking = forms::none_of(Kind::HttpUri, p, s, names);
    forms::judge_value(sink, p, 418, v, lacking);
    forms::judge_items(sink, p, 419, v, Kind::Restricted, s, points);
}
