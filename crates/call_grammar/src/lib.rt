//! The items of which the calls of a database and its answers are made, in bytes and in words, both ways.
#![tactic(auto)]

mod faults;
mod forms;
mod items;
mod limits;
mod lists;
mod shown;
mod sinks;
mod sources;
mod words;
mod xdr_items;

pub use faults::{NoValue, NotRead};
pub use forms::{Form, SkipForm, read_list, skip_list};
pub use items::{NumberItem, SignedItem, TextItem};
pub use limits::MAX_TEXT;
pub use lists::Items;
pub use shown::{bytes_fit, push_words};
pub use sinks::{Sink, Telling, write_list};
pub use sources::Source;
pub use words::{WordReader, WordWriter, are_visible};
pub use xdr_items::at_end;
