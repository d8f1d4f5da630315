//! The words that every crate of the project shares: hosts, versions, images and their changes, the cell
//! with its quorums, and the limits of time. The definitions of vote state, lease and phase record stand
//! in `specs/`, for a cell of any number of servers.
#![tactic(auto)]

mod hosts;
mod images;
mod limits;
mod memory;
mod phases;
mod quorums;
mod versions;
mod words;

pub use hosts::{Cell, CellFault, Host};
pub use images::{Bytes, Change, Changes, bytes_of, changes_new, changes_push};
pub use limits::{
    BIGTIME, MAX_CHANGES, MAX_IMAGE, MAX_MOMENT, MAXSERVERS, POLLTIME, RPCTIMEOUT, SKEW, SMALLTIME,
    law_limits_are_these,
};
pub use memory::NoMemory;
pub use phases::{Applied, Phase};
pub use quorums::{
    Marks, majorities_share_a_server, majority, vote_quorum, vote_quorums_share_a_server,
    votes_suffice,
};
pub use versions::{MAX_COUNTER, Version, versions_compare_as_defined};
pub use words::{WORD_LEN, first_word};
