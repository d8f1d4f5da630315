//! What servers of the two databases are worth that run: the laws of runs, of each schedule of their journals that fits.
#![tactic(auto)]

mod laws;

pub use laws::{law_location_servers_keep_promises, law_protection_servers_keep_promises};
