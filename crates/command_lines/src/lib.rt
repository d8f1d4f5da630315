//! Commands that stand in a text, one a line: the lines of a source, and the words of a line.
#![tactic(auto)]

mod cuts;
mod lines;

pub use cuts::{LineFault, command_words, is_passed_over};
pub use lines::{CommandReader, MAX_COMMAND};
