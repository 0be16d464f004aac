// Lists within lists: which part of an element holds the items.
ghost use Rattle.std.specs.Prelude.{◌≡◌};
ghost use Rattle.forms.specs.Lists.{holder_in};

use der::Head;

// A name for the part and no closure, for the reason of `Kind`; `Items` has it beside its list.
#[derive(Clone, Copy)]
pub enum Nest {
    // the attributes of a SET
    Set,
    // the qualifiers of a policy
    Policy,
    // the names of a distribution point's full name
    Point,
}

fn holder_within(nest: Nest, s: &[u8], h: Head) -> Head
    ensures { result ≡ holder_in nest s.now h }
{
    match nest {
        Nest::Set => h,
        Nest::Policy => policies::qualifiers_of(s, h),
        Nest::Point => locations::full_name_of(s, h),
    }
}

// Most elements that are asked are SETs, so that case is small enough to stand in the loops.
pub fn holder_in(nest: Nest, s: &[u8], h: Head) -> Head
    ensures { result ≡ holder_in nest s.now h }
{
    if let Nest::Set = nest {
        return h;
    }
    holder_within(nest, s, h)
}
