//! What servers that run are worth: the laws of runs, of each schedule of their journals that fits.
#![tactic(auto)]

mod laws;

pub use laws::law_running_servers_keep_promises;
