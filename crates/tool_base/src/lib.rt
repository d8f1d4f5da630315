//! What the commands `vos` and `pts` share: how a call is asked of one host after the other, how a command ends, and
//! texts in columns.
#![tactic(auto)]

mod asking;
mod hearing;
mod settling;
mod stops;
mod texts;
mod writing;

pub use asking::{Client, MAX_CALL};
pub use hearing::{Heard, after_silence};
pub use settling::Reads;
pub use stops::{Refusal, Stop, ToolEnd};
pub use texts::{at_left, at_right, joined, number_text, signed_text};
pub use writing::{say, say_end};
