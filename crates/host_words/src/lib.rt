//! Hosts, as the words of commands name them: by dotted addresses.
#![tactic(auto)]

mod addresses;
mod lists;

pub use addresses::address;
pub use lists::listed_hosts;
