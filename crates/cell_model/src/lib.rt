//! The model of a cell: what happens to a server, what it puts out, and, in `specs/`, the rules of a
//! server, the world of all servers, and what a run of the world is worth. No disk, no code of a server
//! and no script is named here.
#![tactic(auto)]

mod events;
mod laws;

pub use events::{NodeEvent, Output};
pub use laws::{
    law_acknowledged_stay, law_announcements_grow, law_database_is_durable, law_ok_is_acknowledged,
    law_replies_are_single, law_replies_have_causes, law_sites_are_single, law_voters_vote,
};
