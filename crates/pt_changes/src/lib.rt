//! The calls of the protection database that change pairs or remove an entry, over a draft.
#![tactic(auto)]

mod fixed;
mod laws;
mod leaving;
mod pairs;

pub use fixed::is_fixed;
pub use laws::law_leave_leaves_no_trace;
pub use leaving::delete;
pub use pairs::{add_to_group, remove_from_group};
