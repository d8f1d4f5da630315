//! What is left of a rule after its decision: the disk is read or changed, and packets go out. Here alone an act is performed.
ghost use Rattle.std.specs.Prelude.{◌≡◌, ◌≤◌, ◌<◌, ◌⊎◌, if◌then◌else◌, length, false, IsErrOf, IsOk, IsSome, OnOk};
ghost use Rattle.ubik_types.specs.Moment.{IsMoment};
ghost use Rattle.cell_model.specs.NodeRule.{received_from};
ghost use Rattle.cell_model.specs.Recovery.{recovery_turn};
ghost use Rattle.cell_model.specs.Step.{sends_to, showing};
ghost use Rattle.server_rules.specs.Acts.{CanAct, HasRoom, MayEndShort, MayFail, own_piece, stepped_by};
ghost use Rattle.server_state.specs.Plain.{IsPiece, IsPlainBody};
ghost use Rattle.ubik_node.specs.Acts.{ActNeeds};
ghost use Rattle.ubik_node.specs.Choices.{dbs_of};
ghost use Rattle.ubik_node.specs.Built.{BodyTakesNoMemory, IsBuiltBody};

use crate::nodes::Node;
use crate::pieces::read_piece;
use db_image::DraftService;
use disk_base::Disk;
use server_rules::{Act, packet_heard, recovery_turn};
use server_state::{Outputs, State};
use ubik_calls::Body;
use ubik_store::StoreFault;
use ubik_types::{Bytes, Host};

impl<D: Disk, V: DraftService> Node<D, V> {
    ghost use Rattle.ubik_node.specs.Alike.{ActsAlike, AlikeSo, IsAlike, free_dbs};
    ghost use Rattle.ubik_node.specs.Node.{Ends, EndsSo, held, Knows, NeedsFiles, own_member, up_server};

    /// A packet of a server of the cell: what is to be done is decided, and then done.
    pub(crate) fn heard(
        &mut self,
        now: u32,
        from: usize,
        host: Host,
        packet: &Body,
        out: &mut Outputs,
    ) -> Result<(), StoreFault>
        requires moment { IsMoment now }
        requires not_halted { self.old.store.failed ≡ false }
        requires few { length out.old ≤ 100 }
        requires from { from < length self.old.state.cell }
        requires built { IsBuiltBody packet.now }
        ensures ends { EndsSo D.Disk V.standing (NeedsFiles packet.now (IsSome (D.files self.old.store.disk)))
            (λ o. received_from (dbs_of o) (own_member self.old) (up_server self.old) now host from packet.now o.short)
            out.old out.new (held self.old) (held self.new) result }
        ensures alike { OnOk result (AlikeSo V.standing.database (up_server self.old)
            (λ at free. received_from (free_dbs V.standing.database free) (own_member self.old) at now host from packet.now free.short)
            (up_server self.new) out.old out.new) }
        ensures memory { BodyTakesNoMemory packet.now → IsErrOf result StoreFault.DiskFault ⊎ IsOk result }
    {
        let act = packet_heard(&mut self.state, self.alloc, now, from, host, packet)?;
        self.perform(now, act, out)
    }

    /// The recovery turn of a server that is not halted, after the lapse.
    pub(crate) fn recover(&mut self, now: u32, out: &mut Outputs) -> Result<(), StoreFault>
        requires moment { IsMoment now }
        requires not_halted { self.old.store.failed ≡ false }
        requires few { length out.old ≤ 100 }
        ensures ends { EndsSo D.Disk V.standing (Knows D.Disk self.old) (λ _. recovery_turn (own_member self.old) (up_server self.old) now)
            out.old out.new (held self.old) (held self.new) result }
        ensures alike { OnOk result (IsAlike (recovery_turn (own_member self.old) (up_server self.old) now) (up_server self.new) out.old out.new) }
    {
        let act = recovery_turn(&mut self.state, self.alloc, now, out)?;
        self.perform(now, act, out)
    }

    /// Does what is left after a decision. Memory may run out before the disk is changed, and then nothing changed.
    pub(crate) fn perform(
        &mut self,
        now: u32,
        act: Act,
        out: &mut Outputs,
    ) -> Result<(), StoreFault>
        requires moment { IsMoment now }
        requires not_halted { self.old.store.failed ≡ false }
        requires room { HasRoom act (length out.old) }
        requires can { CanAct self.old.state act }
        ensures ends { EndsSo D.Disk V.standing (ActNeeds act.entry (Knows D.Disk self.old) (IsSome (D.files self.old.store.disk)))
            (λ o. stepped_by (dbs_of o) (own_member self.old) now o.short (up_server self.old) act.entry)
            out.old out.new (held self.old) (held self.new) result }
        ensures alike { OnOk result (ActsAlike V.standing.database (own_member self.old) now act.entry (up_server self.old)
            (up_server self.new) out.old out.new) }
        ensures memory { ¬ MayEndShort act.entry → IsErrOf result StoreFault.DiskFault ⊎ IsOk result }
        ensures fine { ¬ MayFail act.entry → IsOk result }
    {
        match act {
            Act::Rest => Ok(()),
            Act::Send { to, body } => {
                self.state.send(to, body, out);
                Ok(())
            }
            Act::SendPiece {
                to,
                poll,
                at,
                asked,
            } => self.send_piece(to, poll, at, asked, out),
            Act::TakeVersion { to, new } => self.take_version(to, new, out),
            Act::TakeWrite { to, new, changes } => self.take_write(to, new, &changes, out),
            Act::EndText {
                end,
                source,
                at,
                bytes,
            } => self.end_text(end, source, at, bytes, out),
            Act::Relabel { next, new } => self.relabel(next, new, out),
            Act::Settle => self.settle_with_turns(now, out),
        }
    }

    /// The piece of the own image from a place on goes to a host, for a poll.
    fn send_piece(
        &mut self,
        to: Host,
        poll: u32,
        at: u32,
        asked: bool,
        out: &mut Outputs,
    ) -> Result<(), StoreFault>
        requires not_halted { self.old.store.failed ≡ false }
        requires few { length out.old ≤ 100 }
        requires within { at ≤ length self.old.state.image }
        ensures ends { Ends D.Disk (IsSome (D.files self.old.store.disk))
            (showing (up_server self.old) (sends_to (own_member self.old) to (own_piece (up_server self.old) poll at asked)))
            out.old out.new (held self.old) (held self.new) result }
        ensures alike { OnOk result (IsAlike
            (showing (up_server self.old) (sends_to (own_member self.old) to (own_piece (up_server self.old) poll at asked)))
            (up_server self.new) out.old out.new) }
    {
        let bytes = read_piece(self.alloc, &mut self.store, at)?;
        let piece = piece_of(&self.state, poll, at, asked, bytes);
        self.state.send(to, piece, out);
        Ok(())
    }
}

/// The packet with these bytes of the own image from a place on.
fn piece_of(state: &State, poll: u32, offset: u32, asked: bool, bytes: Bytes) -> Body
    requires short { IsPiece bytes }
    ensures piece { result ≡ (if asked then Body.Piece poll state.now.version (length state.now.image) offset bytes
        else Body.SendPiece poll state.now.version (length state.now.image) offset bytes) }
    ensures plain { IsPlainBody result }
{
    let version = state.version;
    let total = state.image.len();
    if asked {
        return Body::Piece {
            poll,
            version,
            total,
            offset,
            bytes,
        };
    }
    Body::SendPiece {
        poll,
        version,
        total,
        offset,
        bytes,
    }
}
