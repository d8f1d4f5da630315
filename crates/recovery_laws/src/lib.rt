//! Laws of recovery, for cells of every size: what a server without a write in flight sends and makes durable, and that all images stand
//! for states of the database. Laws alone.
#![tactic(auto)]

mod laws;

pub use laws::{law_images_stand, law_memory_is_told, law_recovery_spreads};
