// What is asked of each slot of the table of extensions: 300+s, 320+s and 340+s. Each has one function, and one loop
// goes over the slots.
ghost use Rattle.std.specs.Prelude.{◌≡◌, [], ◌∷◌, ◌<◌};
ghost use Rattle.certificate.specs.Slots.{slot_count};
ghost use Rattle.certificate.specs.Standing.{standing_by, standings_by};
ghost use Rattle.facts.specs.Case.{slot_in};
ghost use Rattle.report.specs.Sinks.{SinkPuts};
ghost use Rattle.rules_extensions.specs.Slots.{list_place, is_miscritical_at, row_at, rows_over};

use certificate::{Certificate, SLOTS, Slot};
use der::Head;
use profiles::Profile;
use report::Sink;

// A question and no closure: a slot's rule goes by it in the specs too (`row_at`), so that one loop is proved for all three.
#[derive(Clone, Copy)]
pub enum Question {
    // 300+s
    Missing,
    // 320+s
    Criticality,
    // 340+s
    Value,
}

// "At the extension list, or TBS".
pub fn list_place(c: Certificate) -> Head
    ensures { result ≡ list_place c }
{
    let list = c.extensions;
    if list.sound {
        return list;
    }
    c.tbs
}

// Whether an extension in this slot is critical and must not be, or the reverse.
fn is_miscritical_at(p: Profile, slot: usize, critical: bool) -> bool
    ensures { result ≡ is_miscritical_at p slot critical }
{
    profiles::is_miscritical(profiles::criticality_of(p, slot), critical)
}

// The entry of one slot; `list` is the place of an extension that is missing.
fn of_slot(sink: &mut Sink, question: Question, p: Profile, list: Head, slot: usize, v: Slot)
    requires { slot < slot_count }
    ensures { SinkPuts p (row_at question p list slot (standing_by v) ∷ []) sink.old sink.new }
{
    let none = !v.good & der::is_none(v.place);
    match question {
        Question::Missing => sink.judge(p, 300 + slot, none, list),
        Question::Criticality => {
            let bad = is_miscritical_at(p, slot, v.critical);
            sink.judge(p, 320 + slot, !none & bad, v.place)
        }
        Question::Value => sink.judge(p, 340 + slot, !none & !v.good, v.holder),
    }
}

// The entries of all slots from 1 on; `list` is the place of an extension that is missing.
pub fn over_slots(sink: &mut Sink, question: Question, p: Profile, list: Head, each: [Slot; SLOTS])
    ensures { SinkPuts p (rows_over question p list (standings_by (slot_in each))) sink.old sink.new }
{
    for slot in 1..SLOTS {
        of_slot(sink, question, p, list, slot, each[slot]);
    }
}
