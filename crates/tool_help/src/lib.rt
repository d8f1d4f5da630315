//! What `vos` and `pts` print of themselves: their operations, what each takes, and which speak of a word.
#![tactic(auto)]

mod answers;
mod asked;
mod sentences;
mod usages;
mod value_names;

pub use answers::{Said, answer, describes};
pub use asked::{Help, asked_help};
pub use sentences::{sentence, tool_name};
pub use usages::usage;
