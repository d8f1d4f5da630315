//! The commands `vos`, `pts` and `udebug` behind one program: its words, and what comes of them.
#![tactic(auto)]

mod client;
mod debugs;
mod hosts;
mod requests;

pub use client::client_top;
pub use hosts::{Hosts, HostsFault};
pub use requests::{CommandRequest, DebugRequest, Request, RequestFault, read_request};
