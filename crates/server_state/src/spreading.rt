//! Send and Ready: the database goes to the other servers, and those that have it are counted. What changes no disk.
ghost use Rattle.std.specs.Prelude.{◌≡◌, ◌≤◌, ◌<◌, ◌+◌, ◌++◌, ℕ, length, IfOk, OnOk, OnErr};
ghost use Rattle.cell_model.specs.Polls.{entry_at, only_holder};
ghost use Rattle.cell_model.specs.Recovery.{held_by, recovered};
ghost use Rattle.cell_model.specs.Step.{outputs_of, sends_to_each, with_database, with_phase};
ghost use Rattle.ubik_recovery.specs.Record.{polled_of};
ghost use Rattle.ubik_types.specs.Phase as phases;
ghost use Rattle.server_state.specs.Plain.{IsPlainBody};
ghost use Rattle.server_state.specs.Spreading.{IsPlainGiven, IsSpreading, given_bodies};
ghost use Rattle.ubik_types.specs.Version.{IsVersion};
ghost use Rattle.server_state.specs.Recovering.{IsOfCell, IsServing};

use crate::outputs::Outputs;
use crate::state::State;
use cell_model::Output;
use std::alloc::Global;
use ubik_calls::Body;
use ubik_recovery::Recovery;
use ubik_types::{Bytes, NoMemory, Phase, Version, bytes_of};

/// A database that goes to the other servers for a poll: the version before its relabelling and the one after it, how long the image is,
/// and its first piece.
#[derive(Drop)]
pub struct Given {
    pub poll: u32,
    pub old: Version,
    pub new: Version,
    pub total: u32,
    pub piece: Bytes,
}

impl Given {
    ghost use Rattle.server_state.specs.Spreading.{given_body};

    /// What a server gets that answered a version: the new version alone, where it has the old one, else the first piece.
    fn body(&self, alloc: Global, answer: Version) -> Result<Body, NoMemory>
        requires plain { IsPlainGiven self.now }
        ensures body { IfOk result (λ body. body ≡ given_body self.now answer) }
        ensures plain { IfOk result IsPlainBody }
    {
        if answer == self.old {
            return Ok(Body::SetVersion {
                poll: self.poll,
                old: self.old,
                new: self.new,
            });
        }
        let bytes = bytes_of(alloc, self.piece.as_slice())?;
        Ok(Body::SendPiece {
            poll: self.poll,
            version: self.new,
            total: self.total,
            offset: 0,
            bytes,
        })
    }
}

impl State {
    ghost use Rattle.server_state.specs.State.{server_of, member_of, Keeps, ShowsBehind};

    /// A database goes to each other server that answered the poll of a recovery. For want of memory it has gone to some.
    pub fn give(
        &self,
        alloc: Global,
        next: &Recovery,
        given: &Given,
        out: &mut Outputs,
    ) -> Result<(), NoMemory>
        requires few { length out.old ≤ 120 }
        requires plain { IsPlainGiven given.now }
        ensures given { OnOk result (out.new ≡ out.old ++ outputs_of (sends_to_each (member_of self.now) (λ k. given_bodies given.now (entry_at next.now.answers k)))) }
        ensures few { OnOk result (length out.new ≤ length out.old + 20) }
    {
        for k in 0..self.cell.len() {
            if k == self.me {
                continue;
            }
            if let Some(answer) = next.answered_version(k) {
                let body = given.body(alloc, answer)?;
                out.put(Output::Send(self.packet_to(self.cell.host(k), body)));
            }
        }
        Ok(())
    }

    /// The database was relabelled for the poll of a recovery: only this server has it. The write that was begun is dropped.
    pub fn begin_sending(&mut self, next: Recovery, new: Version)
        requires resting { ¬ IsServing self.old.recovery }
        requires of_cell { IsOfCell (length self.old.cell) next }
        requires version { IsVersion new }
        ensures after { server_of self.new ≡ with_phase (with_database (server_of self.old) new self.old.image)
            (phases.Send (polled_of next) (record { old = self.old.version; holders = only_holder (member_of self.old) })) }
        ensures place { member_of self.new ≡ member_of self.old }
        ensures version { self.new.version ≡ new }
        ensures image { self.new.image ≡ self.old.image }
    {
        let mut next = next;
        next.keep_old(self.version);
        next.set_phase(Phase::Send, self.me);
        next.drop_text();
        self.pending = None;
        self.recovery = next;
        self.version = new;
    }

    /// A server has the own version.
    pub fn count_holder(&mut self, from: usize)
        requires from { from < length self.old.cell }
        requires phase { IsSpreading self.old.recovery.phase }
        ensures after { server_of self.new ≡ with_phase (server_of self.old) (held_by (server_of self.old).phase from) }
        ensures kept { Keeps self.old self.new }
    {
        self.recovery.hold(from);
    }

    /// The recovery turn in Send and Ready: the packets of the write in flight go again to each server that is no holder, or else each of them is
    /// asked for its version. For want of memory some were sent.
    pub fn spread_again(&mut self, alloc: Global, out: &mut Outputs) -> Result<(), NoMemory>
        requires few { length out.old ≤ 100 }
        requires phase { IsSpreading self.old.recovery.phase }
        ensures shows { OnOk result ((now : ℕ)
            → ShowsBehind (recovered (member_of self.old) (server_of self.old) now (server_of self.old).phase) (server_of self.new) out.old out.new) }
        ensures err { OnErr result (self.new ≡ self.old) }
        ensures kept { Keeps self.old self.new }
    {
        if let Some(write) = self.in_flight() {
            let holders = self.recovery.holders();
            return self.spread_write(alloc, write.flight(), self.version, &holders, out);
        }
        self.ask_versions(&self.recovery.holders(), self.recovery.poll(), out);
        self.settle(out);
        Ok(())
    }
}
