// Rules 401 to 424: what the extensions' values say (document 01, "Rules on extensions"; document 02, CR 1). They are not
// judged if the extension is missing or fails 340+s.
#![tactic(auto)]

mod access;
mod authority;
mod identifiers;
mod names;
mod points;
mod policy;
mod purposes;
mod usage;

ghost use Rattle.facts.specs.Case.{case_by};
ghost use Rattle.report.specs.Sinks.{SinkPuts};
ghost use Rattle.rules_values.specs.Rules.{value_rows};

use facts::Evidence;
use profiles::Profile;
use report::Sink;

// All of them, in order.
pub fn value_rules(sink: &mut Sink, p: Profile, evidence: &Evidence)
    ensures { SinkPuts p (value_rows p (case_by evidence.now)) sink.old sink.new }
{
    let s = evidence.octets;
    let key = facts::key_in(evidence.facts);
    let kind = key.kind;
    let i = facts::issuer_in(evidence.facts);
    let slots = facts::slots_in(evidence.facts);
    identifiers::identifier_rules(sink, p, s, slots[1], slots[2], slots[3], evidence.issuer, i);
    usage::usage_rules(sink, p, s, kind, slots[4]);
    purposes::purpose_rules(sink, p, s, slots[5]);
    policy::policy_rules(sink, p, s, slots[6]);
    names::host_rules(sink, p, s, slots[7]);
    access::access_rules(sink, p, s, slots[8]);
    points::point_rules(sink, p, s, slots[9]);
    authority::authority_rules(sink, p, s, slots[2], slots[4], slots[8], slots[9]);
}
