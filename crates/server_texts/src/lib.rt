//! The words of a server's program, and what it prints at its end, with its status. Nothing of a server itself is named here.
#![tactic(auto)]

mod kinds;
mod lines;
mod words;

pub use kinds::ServerKind;
pub use lines::say_end;
pub use words::{Database, ServerWords, WordsFault, read_words};
