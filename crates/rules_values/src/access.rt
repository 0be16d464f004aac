// Rules 415 to 417: the entries of the authority information access.
ghost use Rattle.certificate.specs.Standing.{standing_by};
ghost use Rattle.report.specs.Sinks.{SinkPuts};
ghost use Rattle.rules_values.specs.Access.{access_rows};

use certificate::Slot;
use forms::{Items, Kind};
use locations::Method;
use profiles::Profile;
use report::Sink;

// Slot 8 is authority information access.
pub fn access_rules(sink: &mut Sink, p: Profile, s: &[u8], v: Slot)
    ensures { SinkPuts p (access_rows s.now (standing_by v)) sink.old sink.new }
{
    let entries = Items::Members(v.element);
    let ocsp = forms::none_of(Kind::UriBy(Method::Ocsp), p, s, entries);
    let issuers = forms::none_of(Kind::UriBy(Method::CaIssuers), p, s, entries);
    forms::judge_value(sink, p, 415, v, ocsp);
    forms::judge_value(sink, p, 416, v, issuers);
    forms::judge_items(
        sink,
        p,
        417,
        v,
        Kind::NotHttpBy(Method::CaIssuers),
        s,
        entries,
    );
}
