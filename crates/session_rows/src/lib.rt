//! What the programs that read rows from standard input share: bytes and numbers as rows write them, the count of the rows with what is
//! told of those that fail, and the way through all lines to their end.
#![tactic(auto)]

mod faults;
mod reports;
mod runs;
mod texts;

pub use faults::Fault;
pub use reports::Report;
pub use runs::{NO_ROWS, Rows, run_rows};
pub use texts::{bytes_in, first_of, hex_byte, long_in, number_in, push_digits, told_bytes};
