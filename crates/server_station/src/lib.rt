//! The one state that all workers of a server share: its node, the journal of the steps that the node made, and the clients
//! that wait for a reply. A worker makes a turn of it at a time, under a lock that stands elsewhere. No clock, no thread and no
//! socket is named here.
#![tactic(auto)]

mod askers;
mod laws;
mod pasts;
mod recorded;
mod shorts;
mod spelling;
mod station;
mod turns;

pub use askers::Asker;
pub use laws::law_recorded_fits;
pub use recorded::StationEnd;
pub use server_journal::{
    Counts, Full, GhostJournal, Journal, JournalItem, Keeper, Limits, Opening, Seat,
};
pub use station::Station;
