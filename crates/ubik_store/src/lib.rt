//! The store of a server: a version and an image, in a database file, a log and an incoming file, which a crash at any moment leaves
//! as they were before a call or as they are after it.
#![tactic(auto)]

mod commits;
mod faults;
mod installs;
mod logged;
mod measures;
mod opening;
mod redo;
mod stores;
mod transactions;

pub use faults::{NotInstalled, StoreFault};
pub use stores::Store;
