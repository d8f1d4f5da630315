//! Where the hosts of a cell come from, for programs whose words do not begin with them.
#![tactic(auto)]

mod choices;
mod faults;
mod files;
mod words;

pub use choices::{HOSTS_FILE, HOSTS_VARIABLE, chosen_hosts};
pub use faults::HostsFault;
pub use files::hosts_in;
pub use words::{refuse_cells, take_hosts, without_ignored};
