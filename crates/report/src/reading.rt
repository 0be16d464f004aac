// A report read back, entry by entry.
ghost use Rattle.std.specs.Prelude.{◌≡◌};
ghost use Rattle.report.specs.Entries.{entry_of};

use crate::sink::{Entry, WIDTH};
use octets::Place;

// Entry k of a report, from 0. Past the end of the report all octets are 0.
pub fn read_entry(report: &[u8], k: usize) -> Entry
    ensures { result ≡ entry_of report.now k }
{
    if report.len() / WIDTH < k {
        return Entry {
            rule: 0,
            place: Place::NONE,
            level: 0,
        };
    }
    let at = WIDTH * k;
    let place = Place {
        start: octets::pair(report, at + 2),
        len: octets::pair(report, at + 4),
    };
    Entry {
        rule: octets::pair(report, at),
        place: place,
        level: octets::pair(report, at + 6),
    }
}
