// Rules 112 to 122: the subject's name (document 01, "Rules on fields"; document 02, CR 1).
#![tactic(auto)]

mod attributes;
mod common_name;

ghost use Rattle.facts.specs.Case.{case_by};
ghost use Rattle.report.specs.Sinks.{SinkPuts};
ghost use Rattle.rules_subject.specs.Rules.{subject_rows};

use facts::Evidence;
use profiles::Profile;
use report::Sink;

// All of them, in order.
pub fn subject_rules(sink: &mut Sink, p: Profile, evidence: &Evidence)
    ensures { SinkPuts p (subject_rows p (case_by evidence.now)) sink.old sink.new }
{
    let s = evidence.octets;
    let c = facts::fields_in(evidence.facts);
    let slots = facts::slots_in(evidence.facts);
    let name = c.subject;
    attributes::name_and_country(sink, p, s, name);
    attributes::organization_and_state(sink, p, s, name);
    common_name::name_and_sets(sink, p, s, name, slots[7]);
}
