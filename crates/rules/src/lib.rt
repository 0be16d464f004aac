// All rules, in the order of their numbers.
#![tactic(auto)]

ghost use Rattle.facts.specs.Case.{case_by};
ghost use Rattle.report.specs.Sinks.{SinkPuts};
ghost use Rattle.rules.specs.Rules.{all_rules};

use facts::Evidence;
use profiles::Profile;
use report::Sink;

// Appends the entries of a certificate with these facts.
pub fn all_rules(sink: &mut Sink, p: Profile, evidence: &Evidence)
    ensures { SinkPuts p (all_rules p (case_by evidence.now)) sink.old sink.new }
{
    rules_fields::field_rules(sink, p, evidence);
    rules_subject::subject_rules(sink, p, evidence);
    rules_key::key_rules(sink, p, evidence);
    rules_extensions::extension_rules(sink, p, evidence);
    rules_values::value_rules(sink, p, evidence);
}
