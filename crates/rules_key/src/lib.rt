// Rules 201 to 208: the key (document 01, "Rules on fields"; document 02, CR 1).
#![tactic(auto)]

mod algorithm;
mod bits;
mod parameters;
mod rsa;

ghost use Rattle.facts.specs.Case.{case_by};
ghost use Rattle.report.specs.Sinks.{SinkPuts};
ghost use Rattle.rules_key.specs.Rules.{key_rows};

use facts::Evidence;
use profiles::Profile;
use report::Sink;

// All of them, in order.
pub fn key_rules(sink: &mut Sink, p: Profile, evidence: &Evidence)
    ensures { SinkPuts p (key_rows p (case_by evidence.now)) sink.old sink.new }
{
    let s = evidence.octets;
    let k = facts::key_in(evidence.facts);
    algorithm::algorithm_rules(sink, p, s, k);
    rsa::rsa_rules(sink, p, s, k);
}
