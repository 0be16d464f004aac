// The table of refusals, and the values of an answer: specs/Table.antt sets them out.
ghost use Rattle.std.specs.Prelude.{◌≡◌};
ghost use Rattle.refusals.specs.Table as Table;

pub const WRONG_CERTIFICATE_LENGTH: usize = 1;

pub const WRONG_ISSUER_LENGTH: usize = 2;

pub const UNKNOWN_PROFILE: usize = 3;

pub const NOT_SOUND_DER: usize = 4;

pub const SET_OUT_OF_ORDER: usize = 5;

pub const NOT_CERTIFICATE: usize = 6;

pub const TOO_LITTLE_ROOM: usize = 7;

pub const RECORD_NUMBER_ZERO: usize = 8;

pub const ON_NEITHER: usize = 0;

pub const ON_CERTIFICATE: usize = 1;

pub const ON_ISSUER: usize = 2;

#[derive(Clone, Copy)]
pub struct Values {
    pub number: usize,
    pub side: usize,
    pub place: usize,
    // findings of the linter, blocks of the writer
    pub count: usize,
}

pub fn refused(number: usize, side: usize, place: usize) -> Values
    ensures { result ≡ Table.refused number side place }
{
    Values {
        number: number,
        side: side,
        place: place,
        count: 0,
    }
}

pub fn unrefused(count: usize) -> Values
    ensures { result ≡ Table.unrefused count }
{
    Values {
        number: 0,
        side: ON_NEITHER,
        place: 0,
        count: count,
    }
}
