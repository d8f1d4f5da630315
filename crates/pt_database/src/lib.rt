//! The protection database as a service over drafts.
#![tactic(auto)]

mod laws;
mod service;

pub use laws::{
    an_image_holds_one_protection_state, protection_calls_are_answered, protection_calls_are_meant,
    protection_look_ups_have_chains, protection_words_name_calls,
};
pub use service::{PtService, serve_protection};
