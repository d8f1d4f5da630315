//! Tests of the low crates, through their public calls.
#![tactic(auto)]

#[cfg(test)]
mod links;
#[cfg(test)]
mod nets;
#[cfg(test)]
mod streams;
#[cfg(test)]
mod writes;
