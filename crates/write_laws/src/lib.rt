//! Laws of writes over a majority, for cells of every size: what a server sends, makes durable and answers, whatever the event. Laws alone.
#![tactic(auto)]

mod laws;

pub use laws::{law_replies_tell_memory, law_texts_fit, law_writes_spread};
