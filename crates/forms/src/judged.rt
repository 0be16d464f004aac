// "Each" and "one X" in a profile that judges the rule.
ghost use Rattle.std.specs.Prelude.{[], ◌∷◌};
ghost use Rattle.report.specs.Forms.{filter, ones_of};
ghost use Rattle.report.specs.Rows.{◌⦂◌};
ghost use Rattle.report.specs.Sinks.{SinkPuts};
ghost use Rattle.forms.specs.Kinds.{of_kind};
ghost use Rattle.forms.specs.Lists.{items_of, attributes_in};

use crate::items::Items;
use crate::kinds::Kind;
use crate::loops::{each, one};
use der::Head;
use profiles::Profile;
use report::Sink;

pub fn judge_each(sink: &mut Sink, p: Profile, rule: usize, kind: Kind, s: &[u8], items: Items)
    ensures { SinkPuts p
        (rule ⦂ filter (of_kind kind p s.now) (items_of items s.now) ∷ [])
        sink.old sink.new }
{
    if profiles::holds(p, rule) {
        each(sink, rule, kind, p, s, items);
    }
}

// The items are the attributes of a name.
pub fn judge_one(sink: &mut Sink, p: Profile, rule: usize, kind: Kind, s: &[u8], name: Head)
    ensures { SinkPuts p
        (rule ⦂ ones_of name (filter (of_kind kind p s.now) (attributes_in s.now name)) ∷ [])
        sink.old sink.new }
{
    if profiles::holds(p, rule) {
        one(sink, rule, kind, p, s, name);
    }
}
