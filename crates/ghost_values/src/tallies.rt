//! A count that only contracts see, so that no width of a number bounds it.
ghost use Rattle.std.specs.Prelude.{◌≡◌, ◌+◌, ℕ};

use crate::ghosts::{Ghost, Says};
use std::marker::Model;

/// How often something has happened. It takes no memory, and nothing can ask for the number.
#[derive(Drop)]
pub struct Tally {
    count: Ghost<u64>,
}

impl Model for Tally {
    ghost Value = { ℕ };

    ghost view = { λ tally. tally.count.value };
}

struct Zero;

impl Says<(), u64> for Zero {
    ghost says = { λ _. 0 };
}

struct OneMore;

impl Says<Tally, u64> for OneMore {
    ghost says = { λ count. count + 1 };
}

impl Tally {
    /// Nothing has happened yet.
    pub fn new() -> Tally
        ensures { result ≡ 0 }
    {
        Tally {
            count: Ghost::of::<(), Zero>(&()),
        }
    }

    /// It has happened once more.
    pub fn next(&self) -> Tally
        ensures { result ≡ self.now + 1 }
    {
        Tally {
            count: Ghost::of::<Tally, OneMore>(self),
        }
    }
}
