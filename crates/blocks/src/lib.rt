// The deck's blocks: their fields, their check, and how many of them a record takes (document 01, "The deck").
#![tactic(auto)]

mod check;
mod fields;

pub use check::{check_of, is_sound_block};
pub use fields::{
    DESK, is_clear, is_filled, is_record_length, part_of, parts_of, record_length, record_number,
};
