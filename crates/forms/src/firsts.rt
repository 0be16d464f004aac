// The first item of a kind. Where there is none, the answer is the missing member at the end of the list.
ghost use Rattle.std.specs.Prelude.{◌≡◌, not};
ghost use Rattle.der.specs.Header.{children_of};
ghost use Rattle.der.specs.Members.{members_in};
ghost use Rattle.der.specs.Elements.{first_of, any_of};
ghost use Rattle.forms.specs.Kinds.{of_kind};
ghost use Rattle.forms.specs.Lists.{list_of, items_of, items_within};

use crate::items::Items;
use crate::kinds::{Kind, is_of_kind};
use crate::nests::{Nest, holder_in};
use der::Head;
use profiles::Profile;

// Of the elements from `from` to `to`.
fn first_among(kind: Kind, p: Profile, s: &[u8], from: usize, to: usize) -> Head
    ensures { result ≡ first_of (of_kind kind p s.now) to (children_of s.now from to) }
{
    der::children_of(s, from, to)
        .find(|item| is_of_kind(kind, p, s, *item))
        .unwrap_or(der::missing(to))
}

// Of the members of an element.
fn first_held(kind: Kind, p: Profile, s: &[u8], h: Head) -> Head
    ensures { result ≡ first_of (of_kind kind p s.now) h.end (members_in s.now h) }
{
    first_among(kind, p, s, h.body, h.end)
}

// Of the items within the elements from `from` to `to`.
fn first_within(nest: Nest, kind: Kind, p: Profile, s: &[u8], from: usize, to: usize) -> Head
    ensures { result ≡ first_of (of_kind kind p s.now) to (items_within nest s.now from to) }
{
    der::children_of(s, from, to)
        .map(|h| first_held(kind, p, s, holder_in(nest, s, h)))
        .find(|item| !der::is_none(*item))
        .unwrap_or(der::missing(to))
}

pub fn first(kind: Kind, p: Profile, s: &[u8], items: Items) -> Head
    ensures { result ≡ first_of (of_kind kind p s.now) (list_of items).end (items_of items s.now) }
{
    match items {
        Items::Members(list) => first_held(kind, p, s, list),
        Items::Within(nest, list) => first_within(nest, kind, p, s, list.body, list.end),
    }
}

// Whether there is none.
pub fn none_of(kind: Kind, p: Profile, s: &[u8], items: Items) -> bool
    ensures { result ≡ not (any_of (of_kind kind p s.now) (items_of items s.now)) }
{
    der::is_none(first(kind, p, s, items))
}
