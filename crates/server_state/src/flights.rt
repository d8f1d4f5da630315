//! The own write of a sync site: it is committed here first, goes to each other server, and is over once a majority has it.
ghost use Rattle.std.specs.Prelude.{◌≡◌, ◌≤◌, ◌<◌, ◌+◌, ◌++◌, if◌then◌else◌, ℕ, None, [], length, take, List, OnOk};
ghost use Rattle.ubik_types.specs.declared.limits.TheConstants.{MAX_IMAGE};
ghost use Rattle.ubik_types.specs.Image.{effect};
ghost use Rattle.ubik_types.specs.Quorum.{marked};
ghost use Rattle.ubik_types.specs.Version.{IsVersion};
ghost use Rattle.xdr_base.specs.ChangeText.{text_of};
ghost use Rattle.cell_model.specs.Polls.{is_marked};
ghost use Rattle.cell_model.specs.Step.{outputs_of, sends_to_each, with_database};
ghost use Rattle.cell_model.specs.Writes.{settled, write_bodies};
ghost use Rattle.site_writes.specs.OwnWrite.{own_write};
ghost use Rattle.ubik_recovery.specs.Record.{held_alone, polled_of, spread_of};
ghost use Rattle.ubik_write.specs.Flight.{Undoes};
ghost use Rattle.ubik_write.specs.Undo.{image_before};
ghost use Rattle.server_state.specs.Recovering.{IsServing};
ghost use Rattle.server_state.specs.Writing.{own_of};

use crate::held_images::HeldImage;
use crate::outputs::Outputs;
use crate::polling::is_in;
use crate::state::State;
use cell_model::Output;
use ghost_values::{Ghost, Says};
use site_writes::{OwnWrite, SiteWrites};
use std::alloc::Global;
use ubik_calls::{Body, Reply};
use ubik_types::{Bytes, Changes, Host, Marks, NoMemory, Phase, Version, bytes_of, majority};
use ubik_write::{Flight, law_before_image_holds_the_old_bytes, text_len};

/// A write through which the image before it is seen: what is kept of it, and the image after it.
#[derive(Drop)]
struct Undone<'a> {
    flight: &'a Flight,
    image: &'a HeldImage,
}

struct BytesBefore;

impl<'a> Says<Undone<'a>, Bytes> for BytesBefore {
    ghost use Rattle.ubik_write.specs.Undo.{image_before};

    ghost says = { λ u. image_before u.flight.now.undo u.flight.now.old_len u.image.now };
}

/// The own write of a flight, with its answer, over the image after it. Contracts see its call, its changes, and the image before it.
pub fn own_write(
    flight: Flight,
    answer: Bytes,
    call: &[u8],
    changes: &Changes,
    image: &HeldImage,
) -> OwnWrite
    requires text { flight.text ≡ text_of changes.now }
    ensures value { result ≡ own_write flight answer call.now (image_before flight.undo flight.old_len image.now) changes.now }
    ensures before { (old : List ℕ) → Undoes flight old changes.now → image.now ≡ effect old changes.now → result.flight.old_image ≡ old }
{
    // What is kept leads back from the image after the changes.
    law_before_image_holds_the_old_bytes();
    let old_image = Ghost::of::<Undone, BytesBefore>(&Undone {
        flight: &flight,
        image,
    });
    OwnWrite::new(flight, answer, call, changes, old_image)
}

impl State {
    ghost use Rattle.server_state.specs.State.{server_of, member_of, Keeps, ShowsBehind};
    ghost use Rattle.server_state.specs.Writing.{HasPlace, IsPlainWrite, IsUndoneOf, announced_of, flight_of, flight_packets, write_begun, write_over};

    /// Takes the place of a write for a call, so that it can begin without memory. One that was taken for a write that did not begin is free again.
    pub fn hold_place(&mut self, alloc: Global, id: u32) -> Result<(), NoMemory>
        requires free { own_of self.old.writes ≡ None }
        ensures server { server_of self.new ≡ server_of self.old }
        ensures kept { Keeps self.old self.new }
        ensures recovery { self.new.recovery ≡ self.old.recovery }
        ensures held { OnOk result (HasPlace id self.new.writes) }
    {
        let mut writes = match self.writes.take() {
            Some(writes) => writes,
            None => SiteWrites::make(alloc)?,
        };
        writes.release();
        let held = writes.hold(id);
        self.writes = Some(writes);
        held
    }

    /// Sends the packets of a write that leads to a version to a host: its beginning, its pieces in their order, its commit. For want of memory
    /// some were sent.
    fn send_write(
        &self,
        alloc: Global,
        flight: &Flight,
        new: Version,
        to: Host,
        out: &mut Outputs,
    ) -> Result<(), NoMemory>
        requires before { IsVersion flight.now.old_version }
        requires after { IsVersion new }
        ensures sent { OnOk result (out.new ≡ out.old ++ outputs_of (flight_packets (member_of self.now) to new flight.now)) }
        ensures front { take (length out.old) out.new ≡ out.old }
        ensures len { length out.old ≤ length out.new }
    {
        let (_, old, _, _) = flight.ids();
        let pieces = flight.pieces();
        let len = flight.text_len();
        let begin = Body::Begin {
            old,
            new,
            pieces,
            len,
        };
        out.push(Output::Send(self.packet_to(to, begin)))?;
        for number in 0..pieces {
            let bytes = bytes_of(alloc, flight.piece(number))?;
            let piece = Body::PutPiece { new, number, bytes };
            out.push(Output::Send(self.packet_to(to, piece)))?;
        }
        out.push(Output::Send(self.packet_to(to, Body::Commit { old, new })))
    }

    /// Sends the packets of a write that leads to a version to each other server that is not in a set. For want of memory some were sent.
    pub fn spread_write(
        &self,
        alloc: Global,
        flight: &Flight,
        new: Version,
        but: &Marks,
        out: &mut Outputs,
    ) -> Result<(), NoMemory>
        requires before { IsVersion flight.now.old_version }
        requires after { IsVersion new }
        ensures sent { OnOk result (out.new ≡ out.old ++ outputs_of (sends_to_each (member_of self.now)
            (λ k. if is_marked (marked (length self.now.cell) but.now.set) k then [] else write_bodies flight.now.old_version new flight.now.text))) }
        ensures front { take (length out.old) out.new ≡ out.old }
    {
        for k in 0..self.cell.len() {
            if k != self.me && !is_in(but, k) {
                self.send_write(alloc, flight, new, self.cell.host(k), out)?;
            }
        }
        Ok(())
    }

    /// A write was committed here: only this server has it, and the version before it stays the announced one.
    pub fn begin_flight(&mut self, version: Version, image: HeldImage, write: OwnWrite)
        requires serving { IsServing self.old.recovery }
        requires free { own_of self.old.writes ≡ None }
        requires others { 1 < length self.old.cell }
        requires place { HasPlace write.flight.id self.old.writes }
        requires undone { IsUndoneOf image write }
        requires plain { IsPlainWrite write }
        requires version { IsVersion version }
        requires fits { length image ≤ MAX_IMAGE }
        ensures after { server_of self.new ≡ write_begun write (held_alone self.old.recovery self.old.me) (with_database (server_of self.old) version image) }
        ensures place { member_of self.new ≡ member_of self.old }
        ensures image { self.new.image ≡ image }
        ensures version { self.new.version ≡ version }
    {
        self.recovery.drop_text();
        self.pending = None;
        self.recovery.hold_alone(self.me);
        self.version = version;
        self.image = image;
        if let Some(writes) = &mut self.writes {
            writes.begin(write);
        }
    }

    /// What a majority of holders leads to: a database that was sent is announced, and calls are served; a write in flight is over.
    pub fn settle(&mut self, out: &mut Outputs)
        requires few { length out.old ≤ 180 }
        ensures shows { ShowsBehind (settled (member_of self.old) (server_of self.old)) (server_of self.new) out.old out.new }
        ensures few { length out.new ≤ length out.old + 2 }
        ensures kept { Keeps self.old self.new }
    {
        if !majority(&self.cell, &self.recovery.holders()) {
            return;
        }
        match self.recovery.phase() {
            Phase::Send => {
                self.recovery.set_phase(Phase::Ready, self.me);
                out.put(Output::Announce {
                    version: self.version,
                });
            }
            Phase::Ready => self.end_write(out),
            _ => {}
        }
    }

    /// The write in flight, if one is, is over: its version is announced, and then its call is answered.
    fn end_write(&mut self, out: &mut Outputs)
        requires few { length out.old ≤ 180 }
        requires serving { IsServing self.old.recovery }
        ensures shows { ShowsBehind (write_over (server_of self.old) (polled_of self.old.recovery) (spread_of self.old.recovery)
            (announced_of self.old.version (own_of self.old.writes)) (flight_of self.old.writes)) (server_of self.new) out.old out.new }
        ensures few { length out.new ≤ length out.old + 2 }
        ensures kept { Keeps self.old self.new }
    {
        let Some(writes) = &mut self.writes else {
            return;
        };
        let Some(write) = writes.end() else {
            return;
        };
        let version = self.version;
        out.put(Output::Announce { version });
        let id = write.id();
        let reply = Reply::Ok(write.into_answer());
        out.put(Output::Reply { id, reply });
    }
}
