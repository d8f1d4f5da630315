//! The words of the commands `vos` and `pts`.
#![tactic(auto)]

mod faults;
mod given;
mod judged;
mod making;
mod matching;
mod pts_commands;
mod reading;
mod switches;
mod tables;
mod values;
mod vos_commands;

pub use faults::WordsFault;
pub use matching::{Meant, Named, find_named};
pub use reading::{Words, read_words};
pub use switches::Switches;
pub use tables::{COMMON, Need, Operation, Parameter, Switch, Takes, Tool};
pub use values::{Slot, Values, Word};
