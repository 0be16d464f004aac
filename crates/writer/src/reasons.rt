// Why a record is not written: refusals 1, 2, 3, 8 and 7 (document 01, "Refusals and their order"), and the paper's values of each.
ghost use Rattle.std.specs.Prelude.{◌≡◌};
ghost use Rattle.writer.specs.declared.reasons.NotWritten.TheVariants as NotWritten;
ghost use Rattle.writer.specs.Values.{not_written_values};

use lint::Inadmissible;
use refusals::{ON_NEITHER, RECORD_NUMBER_ZERO, TOO_LITTLE_ROOM, Values, refused};

#[derive(Clone, Copy, Debug, PartialEq, Eq)]
pub enum NotWritten {
    // as the linter has it
    Inadmissible(Inadmissible),
    // record number 0
    NoNumber,
    // too little room
    NoRoom,
}

impl From<Inadmissible> for NotWritten {
    ghost from_gives = { λ r reason. reason ≡ NotWritten.Inadmissible r };

    fn from(r: Inadmissible) -> NotWritten {
        NotWritten::Inadmissible(r)
    }
}

pub fn not_written_values(r: NotWritten) -> Values
    ensures { result ≡ not_written_values r }
{
    match r {
        NotWritten::Inadmissible(i) => lint::inadmissible_values(i),
        NotWritten::NoNumber => refused(RECORD_NUMBER_ZERO, ON_NEITHER, 0),
        NotWritten::NoRoom => refused(TOO_LITTLE_ROOM, ON_NEITHER, 0),
    }
}
