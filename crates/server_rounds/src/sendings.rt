//! The frames that a turn leaves.
ghost use Rattle.std.specs.Prelude.{◌≡◌, ◌++◌, ◌∷◌, [], length, IfOk, IsNone, IsTrue, ◌↔◌, OnOk, OnErr, option_to_list};

use std::alloc::Global;
use std::collections::VecDeque;
use std::marker::Model;
use ubik_types::{Bytes, Host, NoMemory};

/// A frame that is to go out.
#[derive(Drop)]
pub enum Sending {
    /// To another server of the cell.
    Packet { to: Host, frame: Bytes },
    /// Back over the connection of a peer.
    Answer { peer: u64, frame: Bytes },
}

/// What a turn left to be sent, in order. Contracts see the list; what memory it has reserved is not part of it.
#[derive(Drop)]
pub struct Sendings {
    list: VecDeque<Sending>,
}

impl Model for Sendings {
    ghost use Rattle.std.specs.Prelude.{List};
    ghost use Rattle.server_rounds.specs.declared.sendings.Sending.{Sending};

    ghost Value = { List Sending };

    ghost view = { λ s. s.list.items };
}

impl Sendings {
    /// An empty list. It is refused only for want of memory.
    pub fn make(alloc: Global) -> Result<Sendings, NoMemory>
        ensures { IfOk result (λ sendings. sendings ≡ []) }
    {
        let list = VecDeque::with_capacity(alloc, FIRST_PLACES)?;
        Ok(Sendings { list })
    }

    /// Takes the first sending; none where the list is empty.
    pub fn take(&mut self) -> Option<Sending>
        ensures first { self.old ≡ option_to_list result ++ self.new }
        ensures none { IsNone result → self.old ≡ [] }
    {
        self.list.pop_front()
    }

    /// Adds a sending at the end. For want of memory the list is as before.
    pub fn push(&mut self, sending: Sending) -> Result<(), NoMemory>
        ensures ok { OnOk result (self.new ≡ self.old ++ sending ∷ []) }
        ensures err { OnErr result (self.new ≡ self.old) }
    {
        self.list.push_back(sending)?;
        Ok(())
    }

    /// Drops all sendings.
    pub fn clear(&mut self)
        ensures { self.new ≡ [] }
    {
        self.list.truncate(0);
    }

    /// How many there are.
    pub fn len(&self) -> usize
        ensures { result ≡ length self.now }
    {
        self.list.len()
    }

    /// Whether there is none.
    pub fn is_empty(&self) -> bool
        ensures { IsTrue result ↔ (self.now ≡ []) }
    {
        self.list.is_empty()
    }
}

/// For how many sendings there is room from the start: a turn seldom leaves more than one for each other server.
const FIRST_PLACES: usize = 20;
