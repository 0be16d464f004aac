// Rules 301 to 363: which extensions there are, whether they are critical, and whether their values are of their
// types (document 01, "Rules on extensions").
#![tactic(auto)]

mod identifiers;
mod slots;

ghost use Rattle.facts.specs.Case.{case_by};
ghost use Rattle.report.specs.Sinks.{SinkPuts};
ghost use Rattle.rules_extensions.specs.Rules.{extension_rows};

use facts::Evidence;
use profiles::Profile;
use report::Sink;
use slots::Question;

// All of them, in order.
pub fn extension_rules(sink: &mut Sink, p: Profile, evidence: &Evidence)
    ensures { SinkPuts p (extension_rows p (case_by evidence.now)) sink.old sink.new }
{
    let s = evidence.octets;
    let c = facts::fields_in(evidence.facts);
    let each = facts::slots_in(evidence.facts);
    let repeated = facts::has_repeats(evidence.facts);
    let list = slots::list_place(c);
    slots::over_slots(sink, Question::Missing, p, list, each);
    slots::over_slots(sink, Question::Criticality, p, list, each);
    slots::over_slots(sink, Question::Value, p, list, each);
    identifiers::identifiers(sink, p, s, c.extensions, repeated);
}
