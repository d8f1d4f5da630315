//! The calls that were asked in a cell.
ghost use Rattle.std.specs.Prelude.{◌≡◌, ◌<◌, ◌≤◌, ◌+◌, ◌++◌, ◌∷◌, [], ℕ, List, OnOk, OnErr, length, map};
ghost use Rattle.cell_model.specs.declared.events.NodeEvent.TheVariants as event;
ghost use Rattle.cell_sites.specs.Calls.{AreAsked, call_in, call_under};

use std::alloc::Global;
use std::marker::Model;
use ubik_node::NodeEvent;
use ubik_types::{Bytes, NoMemory};

/// The calls that were asked, in their order. The id of a call is its place, counted from 1. Each is kept as the event that it is where it
/// is asked; contracts see their bytes.
#[derive(Drop)]
pub struct Calls {
    events: Vec<NodeEvent>,
}

impl Model for Calls {
    ghost Value = { List (List ℕ) };

    ghost view = { λ c. map call_in c.events.items };

    ghost invariant = { λ c. AreAsked c.events.items };
}

impl Calls {
    /// No calls yet.
    pub fn new(alloc: Global) -> Self
        ensures { result ≡ [] }
    {
        Calls {
            events: Vec::new(alloc),
        }
    }

    /// One more call, under the next id.
    pub fn push(&mut self, id: u32, call: Bytes) -> Result<(), NoMemory>
        requires { id ≡ length self.old + 1 }
        ensures ok { OnOk result (self.new ≡ self.old ++ call ∷ []) }
        ensures err { OnErr result (self.new ≡ self.old) }
    {
        self.events.push(NodeEvent::Ask { id, call })?;
        Ok(())
    }

    /// The call of an id as the event that it is where it is asked.
    pub fn event(&self, id: u32) -> &NodeEvent
        requires some { 0 < id }
        requires asked { id ≤ length self.now }
        ensures { result.now ≡ event.Ask id (call_under self.now id) }
    {
        &self.events[id as usize - 1]
    }

    /// The bytes of the call of an id, which counts from 1; none where there is no such call.
    pub fn call(&self, id: u32) -> &[u8]
        ensures { result.now ≡ call_under self.now id }
    {
        match self.events.get((id as usize).saturating_sub(1)) {
            Some(NodeEvent::Ask { call, .. }) => call.as_slice(),
            _ => &[],
        }
    }
}
