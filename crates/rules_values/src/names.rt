// Rules 412 to 414: the names of the subject alternative name.
ghost use Rattle.certificate.specs.Standing.{standing_by};
ghost use Rattle.report.specs.Sinks.{SinkPuts};
ghost use Rattle.rules_values.specs.Hosts.{host_rows};

use certificate::Slot;
use forms::{Items, Kind};
use profiles::Profile;
use report::Sink;

// Slot 7 is the subject alternative name.
pub fn host_rules(sink: &mut Sink, p: Profile, s: &[u8], v: Slot)
    ensures { SinkPuts p (host_rows s.now (standing_by v)) sink.old sink.new }
{
    let names = Items::Members(v.element);
    forms::judge_items(sink, p, 412, v, Kind::NotHost, s, names);
    forms::judge_items(sink, p, 413, v, Kind::Underscore, s, names);
    forms::judge_items(sink, p, 414, v, Kind::NoHostName, s, names);
}
