//! Tests of the net of a running server, over sockets of this machine.
#![tactic(auto)]

#[cfg(test)]
mod ends;
#[cfg(test)]
mod frames;
#[cfg(test)]
mod hosts;
#[cfg(test)]
mod machines;
