//! Tests of the protection database that no row of `protection_sessions` can show: reads that fail.
#![tactic(auto)]

#[cfg(test)]
mod faults;
