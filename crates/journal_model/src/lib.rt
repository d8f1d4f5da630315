//! The journal of a server, as the model has it: the items, their replay, and the schedules in which the journals of a cell stand. No
//! code of a server is named here.
#![tactic(auto)]

mod laws;

pub use laws::{
    law_items_tell_steps, law_numbered_ask_once, law_steps_keep_journals, law_steps_reply_few,
};
