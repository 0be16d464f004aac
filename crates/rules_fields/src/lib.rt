// Rules 101 to 111: version, serial number, algorithms, issuer name and validity (document 01, "Rules on fields"; document 02, CR 1 and CR 2).
#![tactic(auto)]

mod algorithms;
mod period;
mod version;

ghost use Rattle.facts.specs.Case.{case_by};
ghost use Rattle.report.specs.Sinks.{SinkPuts};
ghost use Rattle.rules_fields.specs.Rules.{field_rows};

use facts::Evidence;
use profiles::Profile;
use report::Sink;

// All of them, in order.
pub fn field_rules(sink: &mut Sink, p: Profile, evidence: &Evidence)
    ensures { SinkPuts p (field_rows p (case_by evidence.now)) sink.old sink.new }
{
    let s = evidence.octets;
    let c = facts::fields_in(evidence.facts);
    let i = facts::issuer_in(evidence.facts);
    version::version_and_serial(sink, p, s, c);
    algorithms::algorithms_and_name(sink, p, s, c, evidence.issuer, i.name);
    period::validity(sink, p, c);
}
