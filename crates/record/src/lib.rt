// A record of the parameter sheet: numbers in bytes, the table of kinds, one step of reading a sheet, and the bytes of a curve's record.
#![tactic(auto)]

mod kinds;
mod numbers;
mod points;
mod steps;
mod writes;

pub use kinds::{Kind, LONGEST_RECORD, row_of};
pub use numbers::{mission_in, put_word, word_at};
pub use points::{Held, cubic_numbers, held_curve, kind_of, quintic_numbers};
pub use steps::{ERASED, LONGEST, Slip, erased_bytes, erased_end, step_of};
pub use writes::{put_curve, put_header};
