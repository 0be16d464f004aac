// Rules 361 to 363 of one extension. A later one with an identifier seen before breaks 361 alone: "other rules see the
// first only".
ghost use Rattle.std.specs.Prelude.{◌≡◌};
ghost use Rattle.forms.specs.Kinds.{is_repeat, is_unwanted_in, is_out_of_place_in};

use der::Head;
use profiles::Profile;

// What is known of an extension list: where it starts, and whether it has a repeated identifier at all.
#[derive(Clone, Copy)]
pub struct Repeats {
    pub from: usize,
    pub some: bool,
}

pub fn is_repeat(repeats: Repeats, s: &[u8], h: Head) -> bool
    ensures { result ≡ is_repeat repeats s.now h }
{
    if repeats.some {
        return certificate::seen_before(s, repeats.from, h);
    }
    false
}

pub fn is_unwanted_in(p: Profile, repeats: Repeats, s: &[u8], h: Head) -> bool
    ensures { result ≡ is_unwanted_in p repeats s.now h }
{
    if profiles::is_unwanted(profiles::mark_of(p, certificate::slot_of(s, h))) {
        return !certificate::is_period(s, h) & !is_repeat(repeats, s, h);
    }
    false
}

pub fn is_out_of_place_in(p: Profile, repeats: Repeats, s: &[u8], h: Head) -> bool
    ensures { result ≡ is_out_of_place_in p repeats s.now h }
{
    if profiles::is_out_of_place(profiles::mark_of(p, certificate::slot_of(s, h))) {
        let extension = certificate::extension_of(s, h);
        return extension.critical & !is_repeat(repeats, s, h);
    }
    false
}
