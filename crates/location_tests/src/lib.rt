//! Tests of the crates of the location database, through their public calls.
#![tactic(auto)]

#[cfg(test)]
mod database;
