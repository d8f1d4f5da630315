//! The writes of a sync site.
ghost use Rattle.std.specs.Prelude.{◌≡◌, ◌≤◌, ◌<◌, ◌↔◌, IsTrue, IsSome, IfOk, IsErrAnd, IsOkUnless, OnOk, OnErr, length, slice_get, option_copied};
ghost use Rattle.std.specs.Option.{option_map};
ghost use Rattle.cell_model.specs.Node.{Waiting};
ghost use Rattle.site_writes.specs.Site.{no_writes, with_place, without_place, with_flight, without_flight, with_waiting, without_first, LineIsFull};

use crate::own_writes::OwnWrite;
use circular_buffer::HeapCircularBuffer;
use lock_table::{LockTable, MAX_WAITING};
use std::alloc::Global;
use std::marker::Model;
use thiserror::Error;
use ubik_types::{Bytes, NoMemory, bytes_of};

/// Why a call can not wait.
#[derive(Clone, Copy, Debug, PartialEq, Eq, Error)]
pub enum WaitFault {
    /// The line has no place left behind the write in flight, whose call has this id.
    #[error("the line behind {holder} is full")]
    LineFull { holder: u32 },
    /// Memory ran out.
    #[error("out of memory")]
    NoMemory,
}

impl From<NoMemory> for WaitFault {
    ghost use Rattle.std.specs.Prelude.{◌≡◌};
    ghost use Rattle.site_writes.specs.declared.sites.WaitFault.TheVariants as fault;

    ghost from_gives = { λ _ e. e ≡ fault.NoMemory };

    fn from(_: NoMemory) -> Self {
        WaitFault::NoMemory
    }
}

/// A call whose turn has come.
#[derive(Drop)]
pub struct Asked {
    pub id: u32,
    pub call: Bytes,
}

impl Model for Asked {
    ghost use Rattle.cell_model.specs.Node.{Waiting};

    ghost Value = { Waiting };

    ghost view = { λ asked. record { id = asked.id; call = asked.call } };
}

/// What a sync site keeps of writes (Kazar, "Ubik"; the line and its limit are own). At most one write is in flight, and holds
/// the whole database in the lock table from before its commit on. The calls that come meanwhile wait, 64 at most; the room of
/// the whole line is taken at once.
#[derive(Drop)]
pub struct SiteWrites {
    table: LockTable,
    calls: HeapCircularBuffer<Asked>,
    held: Option<u32>,
    own: Option<OwnWrite>,
}

impl Model for SiteWrites {
    ghost use Rattle.site_writes.specs.Site.{SiteRecord};

    ghost Value = { SiteRecord };

    ghost use Rattle.site_writes.specs.SiteView.{site_of, IsInOrder};

    ghost view = { site_of };

    ghost invariant = { IsInOrder };
}

impl SiteWrites {
    /// No write is in flight, and no call waits.
    pub fn make(alloc: Global) -> Result<SiteWrites, NoMemory>
        ensures { IfOk result (λ site. site ≡ no_writes) }
    {
        let table = LockTable::make(alloc)?;
        let calls = HeapCircularBuffer::with_capacity(alloc, MAX_WAITING)?;
        Ok(SiteWrites {
            table,
            calls,
            held: None,
            own: None,
        })
    }

    /// Takes the place of the write in flight for a call, before its commit: once it is committed, nothing may want memory. Where
    /// memory runs out all is as before.
    pub fn hold(&mut self, id: u32) -> Result<(), NoMemory>
        requires held { self.old.held ≡ None }
        requires own { self.old.own ≡ None }
        ensures ok { OnOk result (self.new ≡ with_place self.old id) }
        ensures err { OnErr result (self.new ≡ self.old) }
    {
        self.table.take(0, u32::MAX, true, id)?;
        self.held = Some(id);
        Ok(())
    }

    /// Gives the place back, where the write that it was taken for is not in flight.
    pub fn release(&mut self)
        ensures { self.new ≡ without_place self.old }
    {
        if let Some(id) = self.held.take() {
            self.table.release(id);
        }
    }

    /// The write for whose call the place was taken is in flight.
    pub fn begin(&mut self, write: OwnWrite)
        requires { self.old.held ≡ Some write.flight.id }
        ensures { self.new ≡ with_flight self.old write }
    {
        self.held = None;
        self.own = Some(write);
    }

    /// The write in flight.
    pub fn in_flight(&self) -> Option<&OwnWrite>
        ensures { option_copied result ≡ self.now.own }
    {
        self.own.as_ref()
    }

    /// Takes the write in flight out, which gives its place back.
    pub fn end(&mut self) -> Option<OwnWrite>
        ensures value { result ≡ self.old.own }
        ensures after { self.new ≡ without_flight self.old }
    {
        let write = self.own.take()?;
        self.table.release(write.id());
        Some(write)
    }

    /// Whether a writing call may have its turn: no write is in flight, and none has the place.
    pub fn is_free(&self) -> bool
        ensures { IsTrue result ↔ (self.now.held ≡ None) × (self.now.own ≡ None) }
    {
        self.held.is_none() && self.own.is_none()
    }

    /// Puts a call at the end of the line behind the write in flight. After a fault all is as before.
    pub fn wait(&mut self, id: u32, call: &[u8]) -> Result<(), WaitFault>
        requires { IsSome self.old.own }
        ensures ok { OnOk result (self.new ≡ with_waiting self.old id call.now) }
        ensures full { MAX_WAITING ≤ length self.old.waiting → IsErrAnd result (LineIsFull self.old) }
        ensures room { length self.old.waiting < MAX_WAITING → IsOkUnless result WaitFault.NoMemory }
        ensures err { OnErr result (self.new ≡ self.old) }
    {
        let holder = self.own.as_ref().unwrap().id();
        if self.table.waiting() >= MAX_WAITING {
            return Err(WaitFault::LineFull { holder });
        }
        let call = bytes_of(*self.calls.allocator(), call)?;
        // Both lines have the same room.
        let _ = self.table.wait(id, holder);
        let _ = self.calls.try_push_back(Asked { id, call });
        Ok(())
    }

    /// Takes the first call out of the line; none where nobody waits.
    pub fn next(&mut self) -> Option<Asked>
        ensures value { result ≡ slice_get self.old.waiting 0 }
        ensures after { self.new ≡ without_first self.old }
    {
        let _ = self.table.next();
        self.calls.pop_front()
    }

    /// The id of the call that waits at a place of the line, counted from 0; none behind its end.
    pub fn waits_at(&self, place: usize) -> Option<u32>
        ensures { result ≡ option_map (λ (w : Waiting). w.id) (slice_get self.now.waiting place) }
    {
        self.calls.get(place).map(|asked| asked.id)
    }

    /// How many calls wait.
    pub fn waiting(&self) -> usize
        ensures len { result ≡ length self.now.waiting }
        ensures not_more { result ≤ MAX_WAITING }
    {
        self.table.waiting()
    }
}
