//! Clients that wait for a reply.
ghost use Rattle.std.specs.Prelude.{◌≡◌, ◌++◌, [], length, take, option_to_list, OnOk, OnErr, IfOk};
ghost use Rattle.server_station.specs.Askers.{asker_of, without};

use std::alloc::Global;
use std::marker::Model;
use ubik_types::NoMemory;

/// A client that waits for the reply to a call: the id of the call, and the peer and the number under which it came.
#[derive(Clone, Copy, Debug, PartialEq, Eq)]
pub struct Asker {
    pub id: u32,
    pub peer: u64,
    pub number: u32,
}

/// For how many there is room from the start: a step answers all calls but those that wait for a majority.
const FIRST_PLACES: usize = 70;

/// The clients that wait, in the order in which they came. Contracts see the list.
#[derive(Drop)]
pub(crate) struct Askers {
    list: Vec<Asker>,
}

impl Model for Askers {
    ghost use Rattle.std.specs.Prelude.{List};
    ghost use Rattle.server_station.specs.declared.askers.Asker.{Asker};

    ghost Value = { List Asker };

    ghost view = { λ a. a.list.items };
}

impl Askers {
    /// Nobody. It is refused only for want of memory.
    pub(crate) fn make(alloc: Global) -> Result<Askers, NoMemory>
        ensures { IfOk result (λ askers. askers ≡ []) }
    {
        let list = Vec::with_capacity(alloc, FIRST_PLACES)?;
        Ok(Askers { list })
    }

    /// How many there are.
    pub(crate) fn len(&self) -> usize
        ensures { result ≡ length self.now }
    {
        self.list.len()
    }

    /// One more, where there is one, who came last. For want of memory the list is as before.
    pub(crate) fn add(&mut self, asker: Option<Asker>) -> Result<(), NoMemory>
        ensures ok { OnOk result (self.new ≡ self.old ++ option_to_list asker) }
        ensures err { OnErr result (self.new ≡ self.old) }
    {
        if let Some(asker) = asker {
            self.list.push(asker)?;
        }
        Ok(())
    }

    /// Keeps the first so many.
    pub(crate) fn cut(&mut self, len: usize)
        ensures { self.new ≡ take len self.old }
    {
        self.list.truncate(len);
    }

    /// The first who waits for the call of an id.
    pub(crate) fn get(&self, id: u32) -> Option<Asker>
        ensures { result ≡ asker_of id self.now }
    {
        find_asker(&self.list, id)
    }

    /// Nobody waits for the call of this id any longer.
    pub(crate) fn remove(&mut self, id: u32)
        ensures { self.new ≡ without id self.old }
    {
        drop_asker(&mut self.list, id);
    }
}

fn find_asker(list: &[Asker], id: u32) -> Option<Asker>
    ensures { result ≡ asker_of id list.now }
{
    for asker in list {
        if asker.id == id {
            return Some(*asker);
        }
    }
    None
}

fn drop_asker(list: &mut Vec<Asker>, id: u32)
    ensures { list.new.items ≡ without id list.old.items }
{
    list.retain(|asker| asker.id != id);
}
