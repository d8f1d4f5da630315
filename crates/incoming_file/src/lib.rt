//! The incoming file of a server: the version and the image that are to take the place of its database. With an open gate it
//! stands in place of database and log, so a crash finds all of it there, or none.
#![tactic(auto)]

mod laws;
mod reads;
mod texts;
mod writes;

pub use laws::{kept_file_is_open, open_file_has_one_reading, short_file_is_ignored};
pub use reads::{Found, IncomingFault, read_incoming, reserve_incoming};
pub use texts::RoomyText;
pub use writes::{clear_incoming, end_incoming, keep_incoming};
