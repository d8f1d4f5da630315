//! XDR (RFC 4506) both ways, as far as frames, calls and replies need it: numbers of 32 bits with and
//! without a sign, truth values, opaques of variable length, and counts. Each item is spelled in words of
//! four bytes, the high byte first. The definitions in `specs/` say how an item is spelled, and what a
//! reader answers at each place.
#![tactic(auto)]

mod faults;
mod laws;
mod readers;
mod sizes;
mod writers;

pub use faults::XdrFault;
pub use laws::{change_text_has_one_reading, no_item_begins_another};
pub use readers::XdrReader;
pub use writers::XdrWriter;
