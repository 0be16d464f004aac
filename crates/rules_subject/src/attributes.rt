// Rules 112 to 119: which attributes there are, and what they say.
ghost use Rattle.report.specs.Sinks.{SinkPuts};
ghost use Rattle.rules_subject.specs.Attributes.{country_rows, organization_rows};

use der::Head;
use forms::{Items, Kind, Nest};
use profiles::Profile;
use report::Sink;

// Rules 112 to 115. CN is 3 below 2.5.4, C is 6.
pub fn name_and_country(sink: &mut Sink, p: Profile, s: &[u8], name: Head)
    ensures { SinkPuts p (country_rows p s.now name) sink.old sink.new }
{
    let attributes = Items::Within(Nest::Set, name);
    forms::judge_each(sink, p, 112, Kind::Foreign, s, attributes);
    forms::judge_one(sink, p, 113, Kind::Attribute(3), s, name);
    forms::judge_one(sink, p, 114, Kind::Attribute(6), s, name);
    forms::judge_each(sink, p, 115, Kind::OtherCountry, s, attributes);
}

// Rules 116 to 119. O is 10, ST is 8.
pub fn organization_and_state(sink: &mut Sink, p: Profile, s: &[u8], name: Head)
    ensures { SinkPuts p (organization_rows p s.now name) sink.old sink.new }
{
    let attributes = Items::Within(Nest::Set, name);
    forms::judge_one(sink, p, 116, Kind::Attribute(10), s, name);
    forms::judge_each(sink, p, 117, Kind::OtherOrganization, s, attributes);
    forms::judge_one(sink, p, 118, Kind::Attribute(8), s, name);
    forms::judge_each(sink, p, 119, Kind::OtherState, s, attributes);
}
