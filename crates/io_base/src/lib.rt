//! The outside of clients and servers, apart from disks: links over which a client asks and is answered, the net,
//! clocks, spawners and gates that the threads of a server share. Each is a trait with a written meaning, and has a
//! form in memory; links have one over TCP too.
#![tactic(auto)]

mod clocks;
mod deadlines;
mod frames;
mod gates;
mod links;
mod memory_links;
mod memory_nets;
mod nets;
mod spawners;
mod tcp_links;

pub use clocks::{Clock, ListClock, WallClock};
pub use frames::MAX_FRAME;
pub use gates::{Gate, OpenGate};
pub use links::{Answer, Exchange, Link};
pub use memory_links::{MemAnswer, MemLink};
pub use memory_nets::{MemFrame, MemNet, MemSent};
pub use nets::{Net, NetGot, NetPut, Paused};
pub use spawners::{Job, Missed, NoSpawner, Spawner, Started, ThreadSpawner};
pub use tcp_links::{CONNECT_SECONDS, TcpLink, Waits, ask_once};
