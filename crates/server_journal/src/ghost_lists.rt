//! A list that only contracts see.
ghost use Rattle.std.specs.Prelude.{◌≡◌, ◌∷◌, ◌++◌, []};

use ghost_values::{Ghost, Says};
use std::collections::LinkedList;
use std::marker::Model;

/// Values, first to last, of which no memory holds any: a `LinkedList` is a list to contracts, and none is made.
#[derive(Drop)]
pub struct GhostList<T> {
    list: Ghost<LinkedList<T>>,
}

impl<T> Model for GhostList<T> {
    ghost use Rattle.std.specs.Prelude.{List};

    ghost Value = { List T };

    ghost view = { λ l. l.list.value };
}

struct Empty;

impl<T> Says<(), LinkedList<T>> for Empty {
    ghost says = { λ _. [] };
}

struct OneMore;

impl<'a, T> Says<(&'a GhostList<T>, &'a T), LinkedList<T>> for OneMore {
    ghost says = { λ now. now.0.now ++ now.1.now ∷ [] };
}

impl<T> GhostList<T> {
    /// No value.
    pub fn new() -> GhostList<T>
        ensures { result ≡ [] }
    {
        GhostList {
            list: Ghost::of::<(), Empty>(&()),
        }
    }

    /// One value more, which may then be dropped.
    pub fn push(&mut self, x: &T)
        ensures { self.new ≡ self.old ++ x.now ∷ [] }
    {
        *self = GhostList {
            list: Ghost::of::<(&GhostList<T>, &T), OneMore>(&(&*self, x)),
        };
    }
}
