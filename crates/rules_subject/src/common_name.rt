// Rules 120 to 122: the first CN among the subject's alternative names, sets of one attribute, and CNs of subordinate CAs.
ghost use Rattle.std.specs.Prelude.{◌≡◌, ◌&&◌};
ghost use Rattle.certificate.specs.Standing.{standing_by};
ghost use Rattle.report.specs.Sinks.{SinkPuts};
ghost use Rattle.rules_subject.specs.CommonName.{is_unnamed, name_rows};

use certificate::Slot;
use der::Head;
use forms::{Items, Kind, Nest};
use profiles::Profile;
use report::Sink;

// Whether the CN, if there is one, is none of the dNSNames, where that is judged.
fn is_unnamed(judged: bool, s: &[u8], cn: Head, alternative: Head) -> bool
    ensures { result ≡ (judged && is_unnamed s.now cn alternative) }
{
    if judged & !der::is_none(cn) {
        let value = subjects::attribute_value(s, cn);
        let length = octets::minus(value.end, value.body);
        return !hosts::some_same(s, value.body, length, alternative.body, alternative.end);
    }
    false
}

// The slot is the subject alternative name's.
pub fn name_and_sets(sink: &mut Sink, p: Profile, s: &[u8], name: Head, v: Slot)
    ensures { SinkPuts p (name_rows s.now name (standing_by v)) sink.old sink.new }
{
    let sets = Items::Members(name);
    let attributes = Items::Within(Nest::Set, name);
    let cn = forms::first(Kind::Attribute(3), p, s, attributes);
    let judged = profiles::holds(p, 120) & v.good;
    let unnamed = is_unnamed(judged, s, cn, v.element);
    sink.judge(p, 120, unnamed, cn);
    forms::judge_each(sink, p, 121, Kind::Crowded, s, sets);
    forms::judge_each(sink, p, 122, Kind::OtherAuthority, s, attributes);
}
