// "A place is a start and a length in the certificate" (document 01, "The report").
ghost use Rattle.std.specs.Prelude.{◌≡◌};
ghost use Rattle.octets.specs.Places.{place_from, end_of};

use crate::reading::minus;

#[derive(Clone, Copy)]
pub struct Place {
    pub start: usize,
    pub len: usize,
}

impl Place {
    // No place: no element is empty.
    pub const NONE: Place = Place { start: 0, len: 0 };

    // The place of an element, from its start to where it ends.
    pub fn element(start: usize, end: usize) -> Place
        ensures { result ≡ place_from start end }
    {
        Place {
            start: start,
            len: minus(end, start),
        }
    }

    // Where the place ends. A place that no list of octets has room for ends at the largest number.
    pub fn end(self) -> usize
        ensures { result ≡ end_of self }
    {
        self.start.saturating_add(self.len)
    }
}
