//! What the programs `vos` and `pts` do around the call that runs a command: they say a text, or run one command or those
//! of a file over one link.
#![tactic(auto)]

mod links;
mod programs;
mod refusals;
mod runs;
mod sayings;
mod sinks;
mod sources;

pub use links::CommandLink;
pub use programs::{behind_name, flush_out, main_of};
pub use runs::run_plan;
pub use sayings::say_said;
pub use sinks::Either;
pub use sources::{Shell, run_source};
