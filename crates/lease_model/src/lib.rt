//! Votes, leases and clocks of a cell alone, with the numbers of their rules as parameters: why at most one server
//! is in lease, and how little is to spare.
#![tactic(auto)]

mod laws;

pub use laws::{
    law_lease_of_62_breaks, law_leases_exclude, law_quorum_of_half_breaks, law_rules_are_safe,
    law_skew_of_8_breaks, law_votes_forgotten_breaks, law_yes_kept_73_breaks,
};
