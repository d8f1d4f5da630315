//! One server of a cell: its database on a disk, its votes and its phase, and one step of it at a time. A
//! step takes a moment and an event, and leaves what it puts out in a list; it has no clock and no thread.
//!
//! It is built whole: votes, recovery, and writes over a majority, in cells of 1 to 20 servers.
#![tactic(auto)]

mod acts;
mod asking;
mod database;
mod evaluations;
mod faults;
mod flights;
mod lines;
mod nodes;
mod pieces;
mod receiver;
mod recovery;
mod serving;
mod store_images;
mod taking;
mod threads;
mod unanswered;
mod verdicts;

pub use cell_model::{NodeEvent, Output};
pub use nodes::{Node, StepEnd};
pub use server_state::Outputs;
pub use ubik_calls::{Body, DebugIs, Packet, Reply};
pub use ubik_store::StoreFault;
