//! Tests of what `vos` and `pts` do with a file of commands.
#![tactic(auto)]

#[cfg(test)]
mod connections;
#[cfg(test)]
mod lines;
