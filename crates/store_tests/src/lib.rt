//! Tests of the disks and the store that are no rows of a session: readers and writers that fail, folders, calls over any disk.
#![tactic(auto)]

#[cfg(test)]
mod disks;
#[cfg(test)]
mod folders;
#[cfg(test)]
mod mirrors;
#[cfg(test)]
mod streams;
