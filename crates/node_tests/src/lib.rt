//! A test of `ubik_node` over a real folder, through its public calls.
#![tactic(auto)]

#[cfg(test)]
mod folders;
