//! What the words of the programs `vos`, `pts` and `afs_client` ask for, before any host is asked: a text, a command, or the
//! commands in a file.
#![tactic(auto)]

mod plans;
mod texts;

pub use plans::{Plan, client_help, make_plan};
pub use texts::{refused, told};
