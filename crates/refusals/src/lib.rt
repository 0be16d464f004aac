// The paper's numbers: "Refusals and their order" (document 01), and the values that an answer has there.
#![tactic(auto)]

mod table;

pub use table::{
    NOT_CERTIFICATE, NOT_SOUND_DER, ON_CERTIFICATE, ON_ISSUER, ON_NEITHER, RECORD_NUMBER_ZERO,
    SET_OUT_OF_ORDER, TOO_LITTLE_ROOM, UNKNOWN_PROFILE, Values, WRONG_CERTIFICATE_LENGTH,
    WRONG_ISSUER_LENGTH, refused, unrefused,
};
