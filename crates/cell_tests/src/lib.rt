//! Tests of `ubik_cell`, through its public calls.
#![tactic(auto)]

#[cfg(test)]
mod scripts;
