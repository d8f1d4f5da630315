//! The lines of a script: read, split into words, understood; and text that is written whole.
#![tactic(auto)]

mod arguments;
mod laws;
mod lines;
mod readers;
mod splits;
mod writers;

pub use laws::{line_has_its_words, text_has_its_lines, text_has_its_whole_lines};
pub use lines::{Kind, Line, MAX_CLOCK, MAX_STOP, MAX_TICK, Why, line_meaning};
pub use readers::{LimitedReader, LineEnd, LineReader, MAX_LINE};
pub use splits::{Words, split_words};
pub use writers::{WriteFault, write_whole};
