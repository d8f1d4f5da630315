//! Recovery of a server: its phase, what the servers of its cell answered to a poll, who has the present version, and the
//! text that it receives of another server's image. No call but those that take a piece takes memory, and each
//! byte that comes is copied once: behind room for a label.
#![tactic(auto)]

mod answers;
mod laws;
mod records;
mod texts;

pub use laws::law_calls_are_steps;
pub use records::Recovery;
pub use texts::{CollectedText, TextBefore, TextSource};
