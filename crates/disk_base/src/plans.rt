//! Calls that fail by their numbers.
ghost use Rattle.std.specs.Prelude.{◌≡◌, ◌≤◌, IfOk, IsTrue, ◌↔◌};
ghost use Rattle.disk_base.specs.Plan.{fails_next, after_call, IsFresh};

use std::alloc::Global;
use ubik_types::NoMemory;

/// Which calls are to fail, counted from 1, and how many were made.
#[derive(Drop)]
pub(crate) struct Plan {
    fails: Vec<u64>,
    made: u64,
}

impl Plan {
    /// No call was made yet.
    pub(crate) fn new(alloc: Global, fails: &[u64]) -> Result<Plan, NoMemory>
        ensures { IfOk result (IsFresh fails.now) }
    {
        Ok(Plan {
            fails: fails.to_vec(alloc)?,
            made: 0,
        })
    }

    /// Counts one more call, and says whether it is to fail. Past 2^64 - 1 calls none is.
    pub(crate) fn next_fails(&mut self) -> bool
        ensures fails { result ≡ fails_next self.old }
        ensures counted { self.new ≡ after_call self.old }
    {
        match self.made.checked_add(1) {
            Some(number) => {
                self.made = number;
                self.fails.contains(&number)
            }
            None => false,
        }
    }
}
