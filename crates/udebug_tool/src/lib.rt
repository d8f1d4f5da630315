//! The command `udebug`: what each server of a cell says of itself.
#![tactic(auto)]

mod hearing;
mod kinds;
mod running;
mod seeing;
mod texts;

pub use kinds::ServerKind;
pub use running::run_udebug;
