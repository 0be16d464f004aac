// The sink: entries are appended to lent room, and counted whether they fit or not. So the same functions count,
// over no room at all, and write.
ghost use Rattle.std.specs.Prelude.{◌≡◌, [], ◌∷◌, ◌+◌, ◌*◌, ◌≤◌, leb, length};
ghost use Rattle.std.proofs.lemmas.List.Edits.{sets};
ghost use Rattle.octets.specs.Numbers.{pair_of};
ghost use Rattle.report.specs.Entries.{width, entry_at, noted};
ghost use Rattle.report.specs.Putting.{tick};
ghost use Rattle.report.specs.Rows.{◌⦂◌, broken_at};
ghost use Rattle.report.specs.Sinks.{IsOver, SinkPut, SinkPuts};

use der::Head;
use octets::Place;
use profiles::Profile;

// A finding: the rule, the place of the element that breaks it, and the number of the rule's level.
#[derive(Clone, Copy)]
pub struct Entry {
    pub rule: usize,
    pub place: Place,
    pub level: usize,
}

// The octets of an entry.
pub const WIDTH: usize = 8;

// No count goes further: so many entries pass any room, which has fewer than 2^63 octets.
const CAP: usize = 9223372036854775808 / WIDTH;

// Whether so many entries do not exceed room of so many octets.
pub fn has_room(count: usize, room: usize) -> bool
    ensures { result ≡ leb (width * count) room }
{
    count <= room / WIDTH
}

// The count after one entry more.
fn one_more(n: usize) -> usize
    ensures { result ≡ tick n }
{
    if n < CAP {
        return n + 1;
    }
    n
}

// Writes a number as two octets, the high one first.
fn write_pair(room: &mut [u8], at: usize, number: usize)
    requires { at + 2 ≤ length room.old }
    ensures { room.new ≡ sets room.old at (pair_of number) }
{
    room[at] = (number / 256 % 256) as u8;
    room[at + 1] = (number % 256) as u8;
}

// The entry of a rule at an element.
fn entry_at(rule: usize, h: Head) -> Entry
    ensures { result ≡ entry_at rule h }
{
    let place = Place::element(h.at, h.end);
    let level = profiles::level_of(rule);
    Entry {
        rule: rule,
        place: place,
        level: profiles::level_number(level),
    }
}

// Lent room, and how many entries have been put, those that did not fit too.
#[derive(Drop)]
pub struct Sink<'a> {
    room: &'a mut [u8],
    pub count: usize,
}

impl<'a> Sink<'a> {
    // Over room, before the first entry.
    pub fn new(room: &'a mut [u8]) -> Sink<'a>
        ensures { IsOver room.entry result }
    {
        Sink { room, count: 0 }
    }

    // Appends an entry, if it fits, and counts it in any case.
    pub fn put(&mut self, e: Entry)
        ensures { SinkPut (e ∷ []) self.old self.new }
    {
        let n = self.count;
        let place = e.place;
        if n < self.room.len() / WIDTH {
            let at = WIDTH * n;
            write_pair(self.room, at, e.rule);
            write_pair(self.room, at + 2, place.start);
            write_pair(self.room, at + 4, place.len);
            write_pair(self.room, at + 6, e.level);
            self.count = n + 1;
            return;
        }
        self.count = one_more(n);
    }

    // What a rule does that judges one element: an entry at it where it is bad.
    pub fn note(&mut self, rule: usize, bad: bool, h: Head)
        ensures { SinkPut (noted rule bad h) self.old self.new }
    {
        if bad {
            self.put(entry_at(rule, h));
        }
    }

    // The same, in a profile that judges the rule.
    pub fn judge(&mut self, p: Profile, rule: usize, bad: bool, h: Head)
        ensures { SinkPuts p (rule ⦂ broken_at bad h ∷ []) self.old self.new }
    {
        let judged = profiles::holds(p, rule);
        self.note(rule, judged & bad, h);
    }
}
