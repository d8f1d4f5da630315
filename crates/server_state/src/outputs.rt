//! The list that a step leaves.
ghost use Rattle.std.specs.Prelude.{◌≡◌, ◌<◌, ◌++◌, ◌∷◌, [], length, take, IfOk, IfSome, IsNone, OnOk, OnErr, option_copied, option_to_list, slice_get};
ghost use Rattle.server_state.specs.Spelled.{IsSpelled};

use cell_model::Output;
use std::alloc::Global;
use std::collections::VecDeque;
use std::marker::Model;
use ubik_types::NoMemory;

/// For how many outputs of one step there is room from the start: all but the packets of a write.
const PLACES: usize = 200;

/// What a step put out, in order. Contracts see the list. It has room for the outputs of a step from the
/// start, so that putting one out takes no memory; only the packets of a write can be more. Each packet and each reply in
/// it has a spelling on the wire, whatever images and disks hold.
#[derive(Drop)]
pub struct Outputs {
    list: VecDeque<Output>,
}

impl Model for Outputs {
    ghost use Rattle.std.specs.Prelude.{List, ◌≤◌};
    ghost use Rattle.server_state.specs.Spelled.{AreSpelled};
    ghost use Rattle.std.specs.VecDeque.{deque_capacity};
    ghost use Rattle.cell_model.specs.declared.events.Output.{Output};

    ghost Value = { List Output };

    ghost view = { λ o. o.list.items };

    ghost invariant = { λ o. (200 ≤ deque_capacity o.list) × AreSpelled o.list.items };
}

impl Outputs {
    /// An empty list, with all its room. It is refused only for want of memory.
    pub fn make(alloc: Global) -> Result<Outputs, NoMemory>
        ensures { IfOk result (λ outputs. outputs ≡ []) }
    {
        let list = VecDeque::with_capacity(alloc, PLACES)?;
        Ok(Outputs { list })
    }

    /// Takes the first output; none where the list is empty.
    pub fn take(&mut self) -> Option<Output>
        ensures first { self.old ≡ option_to_list result ++ self.new }
        ensures none { IsNone result → self.old ≡ [] }
        ensures spelled { IfSome result IsSpelled }
    {
        self.list.pop_front()
    }

    /// How many outputs there are.
    pub fn len(&self) -> usize
        ensures { result ≡ length self.now }
    {
        self.list.len()
    }

    /// The output at a place, counted from 0; none behind the last.
    pub fn get(&self, place: usize) -> Option<&Output>
        ensures place { option_copied result ≡ slice_get self.now place }
        ensures spelled { IfSome result (λ output. IsSpelled output.now) }
    {
        self.list.get(place)
    }

    /// Takes all outputs back.
    pub fn clear(&mut self)
        ensures { self.new ≡ [] }
    {
        self.list.truncate(0);
    }

    /// Takes all outputs but the first so many back.
    pub fn cut(&mut self, len: usize)
        ensures { self.new ≡ take len self.old }
    {
        self.list.truncate(len);
    }

    /// Adds an output at the end of fewer than 200.
    pub fn put(&mut self, output: Output)
        requires room { length self.old < 200 }
        requires spelled { IsSpelled output }
        ensures { self.new ≡ self.old ++ output ∷ [] }
    {
        let _ = self.list.push_back(output);
    }

    /// Adds an output at the end of any number. For want of memory the list is as before.
    pub fn push(&mut self, output: Output) -> Result<(), NoMemory>
        requires spelled { IsSpelled output }
        ensures ok { OnOk result (self.new ≡ self.old ++ output ∷ []) }
        ensures err { OnErr result (self.new ≡ self.old) }
    {
        self.list.push_back(output)?;
        Ok(())
    }
}
