// "Each" and "one X" (document 01, "Rules on fields"): an entry for each item that breaks the rule. One loop for all
// kinds, and no branch in it that writes.
ghost use Rattle.der.specs.Header.{children_of};
ghost use Rattle.report.specs.Sinks.{SinkPut};
ghost use Rattle.report.specs.Workings.Forms.{each as each_of, one, is_behind};
ghost use Rattle.forms.specs.Kinds.{of_kind};
ghost use Rattle.forms.specs.Lists.{items_of, items_within, attributes_in};

use crate::firsts::first;
use crate::items::Items;
use crate::kinds::{Kind, is_of_kind};
use crate::nests::{Nest, holder_in};
use der::Head;
use profiles::Profile;
use report::Sink;

// The items are those of the elements from `from` to `to` that start at `place` or behind it.
fn each_among(
    sink: &mut Sink,
    rule: usize,
    kind: Kind,
    p: Profile,
    s: &[u8],
    place: usize,
    from: usize,
    to: usize,
)
    ensures { SinkPut
        (each_of rule (is_behind (of_kind kind p s.now) place) (children_of s.now from to))
        sink.old sink.new }
{
    for item in der::children_of(s, from, to) {
        let bad = is_of_kind(kind, p, s, item);
        sink.note(rule, bad & (place <= item.at), item);
    }
}

// The items are those within the elements from `from` to `to` that start at `place` or behind it.
fn each_within(
    sink: &mut Sink,
    rule: usize,
    nest: Nest,
    kind: Kind,
    p: Profile,
    s: &[u8],
    place: usize,
    from: usize,
    to: usize,
)
    ensures { SinkPut
        (each_of rule (is_behind (of_kind kind p s.now) place) (items_within nest s.now from to))
        sink.old sink.new }
{
    for h in der::children_of(s, from, to) {
        let holder = holder_in(nest, s, h);
        each_among(sink, rule, kind, p, s, place, holder.body, holder.end);
    }
}

// Those of the items that start at `place` or behind it.
fn each_behind(
    sink: &mut Sink,
    rule: usize,
    kind: Kind,
    p: Profile,
    s: &[u8],
    items: Items,
    place: usize,
)
    ensures { SinkPut
        (each_of rule (is_behind (of_kind kind p s.now) place) (items_of items s.now))
        sink.old sink.new }
{
    match items {
        Items::Members(list) => {
            each_among(sink, rule, kind, p, s, place, list.body, list.end);
        }
        Items::Within(nest, list) => {
            each_within(sink, rule, nest, kind, p, s, place, list.body, list.end);
        }
    }
}

pub fn each(sink: &mut Sink, rule: usize, kind: Kind, p: Profile, s: &[u8], items: Items)
    ensures { SinkPut (each_of rule (of_kind kind p s.now) (items_of items s.now)) sink.old sink.new }
{
    each_behind(sink, rule, kind, p, s, items, 0);
}

// "One X" among the attributes of the sets of a name, where X is an attribute of the kind.
pub fn one(sink: &mut Sink, rule: usize, kind: Kind, p: Profile, s: &[u8], name: Head)
    ensures { SinkPut
        (one rule (of_kind kind p s.now) name (attributes_in s.now name))
        sink.old sink.new }
{
    let attributes = Items::Within(Nest::Set, name);
    let found = first(kind, p, s, attributes);
    sink.note(rule, found.end <= found.at, name);
    each_behind(sink, rule, kind, p, s, attributes, found.end);
}
