//! The commands `vos` and `pts` as values: what each is asked to do, and the forms of the words that they are read from.
#![tactic(auto)]

mod accesses;
mod commands;
mod entries;
mod forms;
mod partitions;
mod places;
mod volumes;

pub use accesses::Access;
pub use commands::{PtsCommand, ToolCommand, VosCommand};
pub use entries::{Entry, is_signed_numeral};
pub use forms::{Form, MAX_NEW_ID, MAX_NEW_VOLUME, Value};
pub use partitions::partition;
pub use places::{Place, SiteFilter, Style};
pub use volumes::{MAX_NAME, Volume};
