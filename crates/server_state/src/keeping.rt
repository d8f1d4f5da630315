//! The writes that another server began: they are kept until their commit comes. All memory is taken before the disk is changed.
ghost use Rattle.std.specs.Prelude.{◌≡◌, ◌<◌, None, Some, OnOk, OnErr};
ghost use Rattle.cell_model.specs.Receiver.{abort_received, kept_with, whole_write};
ghost use Rattle.cell_model.specs.Step.{quiet};
ghost use Rattle.server_state.specs.Keeping.{IsKeptOver};

use crate::state::State;
use ubik_types::{NoMemory, Version};
use ubik_write::{Pending, PendingEnd};

impl State {
    ghost use Rattle.server_state.specs.State.{server_of, Keeps};
    ghost use Rattle.ubik_write.specs.Pending.{EndsBy};

    /// Keeps a write that another server began, in place of the one before.
    pub fn keep_write(&mut self, write: Pending)
        requires { IsKeptOver self.old.version write }
        ensures after { server_of self.new ≡ record (server_of self.old) { kept = Some write } }
        ensures kept { Keeps self.old self.new }
    {
        self.pending = Some(write);
    }

    /// Takes a piece of the write of a version in, where that write is kept.
    pub fn keep_write_piece(
        &mut self,
        new: Version,
        number: u32,
        bytes: &[u8],
    ) -> Result<(), NoMemory>
        ensures after { OnOk result (server_of self.new ≡ record (server_of self.old) { kept = kept_with new number bytes.now self.old.pending }) }
        ensures kept { Keeps self.old self.new }
        ensures err { OnErr result (self.new ≡ self.old) }
    {
        let Some(write) = &mut self.pending else {
            return Ok(());
        };
        if write.versions().1 != new {
            return Ok(());
        }
        write.piece(number, bytes)
    }

    /// The changes of the write of a version: they are missing where that write is not kept.
    pub fn kept_changes(&self, new: Version) -> PendingEnd
        ensures { EndsBy (whole_write new self.now.pending) result }
    {
        match &self.pending {
            Some(write) if write.versions().1 == new => write.finish(),
            _ => PendingEnd::Missing,
        }
    }

    /// Abort: the write of a version is given up.
    pub fn abort_received(&mut self, new: Version)
        ensures rests { abort_received (server_of self.old) new ≡ quiet (server_of self.new) }
        ensures kept { Keeps self.old self.new }
    {
        let kept = matches!(&self.pending, Some(write) if write.versions().1 == new);
        if kept && !self.is_spreading() {
            self.pending = None;
        }
    }
}
