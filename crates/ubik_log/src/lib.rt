//! The log of a server, as bytes and on a disk: what a transaction writes before it touches the database, and what
//! is read after a stop. The definitions in `specs/` say which bytes are a committed log, and of which changes.
#![tactic(auto)]

mod codec;
mod disk_logs;
mod laws;
mod opcodes;
mod readers;
mod states;
mod writers;

pub use codec::{empty_log, encode_log, parse_log};
pub use disk_logs::{LogFault, close_gate, keep_log, open_gate, read_log};
pub use laws::{
    closed_gate_is_discarded, gate_decides, log_has_one_reading, no_log_begins_another,
    short_log_is_discarded, zero_word_is_discarded,
};
pub use states::LogState;
