//! The command `pts`: users, groups and who is in which, asked of the protection database.
#![tactic(auto)]

mod answers;
mod asking;
mod flags;
mod listing;
mod making;
mod names;
mod plans;
mod running;
mod setting;
mod tasks;
mod texts;

pub use running::run_pts;
pub use tool_base::ToolEnd;
