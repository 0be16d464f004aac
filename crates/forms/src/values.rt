// Rules on the value of an extension, which "are not judged if the extension is missing or fails 340+s" (document 01,
// "Rules on extensions").
ghost use Rattle.std.specs.Prelude.{[], ◌∷◌};
ghost use Rattle.report.specs.Forms.{filter};
ghost use Rattle.report.specs.Rows.{◌⦂◌, broken_at};
ghost use Rattle.report.specs.Sinks.{SinkPuts};
ghost use Rattle.forms.specs.Kinds.{of_kind};
ghost use Rattle.forms.specs.Lists.{items_of};
ghost use Rattle.forms.specs.Values.{if_good};

use crate::items::Items;
use crate::judged::judge_each;
use crate::kinds::Kind;
use certificate::Slot;
use profiles::Profile;
use report::Sink;

// At the OCTET STRING.
pub fn judge_value(sink: &mut Sink, p: Profile, rule: usize, v: Slot, bad: bool)
    ensures { SinkPuts p (rule ⦂ if_good v (broken_at bad v.holder) ∷ []) sink.old sink.new }
{
    sink.judge(p, rule, v.good & bad, v.holder);
}

// At each of the value's items that is of this kind.
pub fn judge_items(
    sink: &mut Sink,
    p: Profile,
    rule: usize,
    v: Slot,
    kind: Kind,
    s: &[u8],
    items: Items,
)
    ensures { SinkPuts p
        (rule ⦂ if_good v (filter (of_kind kind p s.now) (items_of items s.now)) ∷ [])
        sink.old sink.new }
{
    if v.good {
        judge_each(sink, p, rule, kind, s, items);
    }
}
