//! What a running server tells of itself: who changed what, by a net around its own one, and how its state changes, by what it answers
//! when it is asked. Where it is told, and from which thread, is its program's business.
#![tactic(auto)]

mod answer_texts;
mod auditing;
mod auditors;
mod call_words;
mod changes;
mod entries;
mod looking;
mod open_calls;
mod watching;
mod wires;
mod word_lists;

pub use auditing::{AuditedNet, Recorder};
pub use changes::{Change, Seen};
pub use looking::look;
pub use watching::Watch;
pub use wires::Wire;
