//! A running server of one of the databases, from the words of the program to its status: a node over its disk, a station with a
//! journal, and a crew of workers. What lies outside of it, as net, clock, disk and threads, is handed in.
#![tactic(auto)]

mod benches;
mod ends;
mod openings;
mod tops;

pub use ends::{ServerEnd, ServerRun};
pub use server_texts::{Database, ServerKind, ServerWords, WordsFault, read_words, say_end};
pub use tops::{server_over, server_top};
