// Rules 407 and 408: the purposes of extended key usage.
ghost use Rattle.certificate.specs.Standing.{standing_by};
ghost use Rattle.report.specs.Sinks.{SinkPuts};
ghost use Rattle.rules_values.specs.Purposes.{purpose_rows};

use certificate::Slot;
use forms::{Items, Kind};
use profiles::Profile;
use report::Sink;

// Slot 5 is extended key usage.
pub fn purpose_rules(sink: &mut Sink, p: Profile, s: &[u8], v: Slot)
    ensures { SinkPuts p (purpose_rows p s.now (standing_by v)) sink.old sink.new }
{
    let purposes = Items::Members(v.element);
    let lacking = forms::none_of(Kind::WantedPurpose, p, s, purposes);
    forms::judge_value(sink, p, 407, v, lacking);
    forms::judge_items(sink, p, 408, v, Kind::OtherPurpose, s, purposes);
}
