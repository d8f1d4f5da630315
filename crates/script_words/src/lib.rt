//! Words of scripts and commands: the numbers that they write.
#![tactic(auto)]

mod laws;
mod numbers;

pub use laws::decimal_text_is_its_number;
pub use numbers::{is_numeral, number, number_within, signed_number};
