// Rules 409 to 411: certificate policies and their qualifiers.
ghost use Rattle.certificate.specs.Standing.{standing_by};
ghost use Rattle.report.specs.Sinks.{SinkPuts};
ghost use Rattle.rules_values.specs.Policies.{policy_rows};

use certificate::Slot;
use forms::{Items, Kind, Nest};
use profiles::Profile;
use report::Sink;

// Slot 6 is certificate policies.
pub fn policy_rules(sink: &mut Sink, p: Profile, s: &[u8], v: Slot)
    ensures { SinkPuts p (policy_rows p s.now (standing_by v)) sink.old sink.new }
{
    let policies = Items::Members(v.element);
    let qualifiers = Items::Within(Nest::Policy, v.element);
    let federal = forms::none_of(Kind::FederalPolicy, p, s, policies);
    let forum = forms::none_of(Kind::ForumPolicy, p, s, policies);
    forms::judge_value(sink, p, 409, v, federal);
    forms::judge_value(sink, p, 410, v, forum);
    forms::judge_items(sink, p, 411, v, Kind::OtherQualifier, s, qualifiers);
}
