//! Short runs of the model of a cell over a database of a few bytes, each the reason for a rule or a bound.
#![tactic(auto)]

mod runs;

pub use runs::{
    cheats_do_not_fit, half_is_too_few, late_commit_is_undone, polls_of_one_second, servers_run,
    told_servers_run, unknown_is_left_out, unknown_is_ordered, versions_must_agree,
};
