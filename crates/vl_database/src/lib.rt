//! The location database as a service over drafts.
#![tactic(auto)]

mod laws;
mod service;

pub use laws::{
    an_image_holds_one_location, location_calls_are_answered, location_calls_are_meant,
    location_words_name_calls,
};
pub use service::{VlService, serve_location};
