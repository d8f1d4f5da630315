//! Calls that a server is asked: they are read, written, put into the line of those that wait, or refused.
ghost use Rattle.std.specs.Prelude.{◌≡◌, ◌<◌, ◌≤◌, ◌+◌, ◌++◌, ◌∷◌, ◌⊎◌, ◌↔◌, ℕ, List, None, Some, [], false, true, length, take, IfOk, IsErrOf, IsOk, IsSome, OnErr, OnOk};
ghost use Rattle.ubik_types.specs.declared.versions.TheConstants.{MAX_COUNTER};
ghost use Rattle.ubik_types.specs.Logged.{too_large};
ghost use Rattle.cell_model.specs.declared.events.Output.TheVariants as outputs;
ghost use Rattle.server_state.specs.Recovering.{IsServing};
ghost use Rattle.server_state.specs.Plain.{IsAnswer, IsPlainReply};
ghost use Rattle.ubik_node.specs.Evaluation.{IsShortReply, is_evaluated};
ghost use Rattle.ubik_node.specs.Serving.{IsReadReply};
ghost use Rattle.ubik_calls.specs.declared.replies.Reply.{Reply};
ghost use Rattle.server_state.specs.Writing.{own_of, waiting_of};

use crate::database::commit_all;
use crate::evaluations::{Evaluation, evaluate, evaluate_before};
use crate::nodes::Node;
use crate::serving::{Turn, reply_of, turn_of};
use crate::verdicts::{Verdict, verdict_of};
use cell_model::Output;
use db_image::DraftService;
use disk_base::Disk;
use server_state::{HeldImage, Outputs};
use ubik_calls::Reply;
use ubik_store::StoreFault;
use ubik_types::{Bytes, Changes, Version};

impl<D: Disk, V: DraftService> Node<D, V> {
    ghost use Rattle.cell_model.specs.Asks.{asked};
    ghost use Rattle.cell_model.specs.Step.{is_short};
    ghost use Rattle.cell_model.specs.Writes.{announced_image, is_free, next_version, write_turn, written_in};
    ghost use Rattle.state_laws.specs.Over.{over};
    ghost use Rattle.ubik_node.specs.Alike.{AlikeSo, IsAlike, ReadsAlike, TurnsAlike, free_dbs};
    ghost use Rattle.ubik_node.specs.Choices.{dbs_of};
    ghost use Rattle.ubik_node.specs.Node.{Ends, EndsSo, held, own_member, up_server};
    ghost use Rattle.ubik_node.specs.Serving.{IsRepliedTo, ReadsFrom};
    ghost use Rattle.ubik_node.specs.Verdict.{IsWritten};

    /// A call at a server that is not halted, after the lapse. Want of memory is a reply to it.
    pub(crate) fn ask(
        &mut self,
        now: u32,
        id: u32,
        call: &[u8],
        out: &mut Outputs,
    ) -> Result<(), StoreFault>
        requires not_halted { self.old.store.failed ≡ false }
        requires few { length out.old ≤ 100 }
        ensures ends { EndsSo D.Disk V.standing
            (is_evaluated (own_member self.old) (up_server self.old) now (V.standing.database.writes call.now) ≡ true → IsSome (D.files self.old.store.disk))
            (λ o. asked (dbs_of o 0) (own_member self.old) (up_server self.old) now id call.now (is_short o.short))
            out.old out.new (held self.old) (held self.new) result }
        ensures alike { OnOk result (AlikeSo V.standing.database (up_server self.old)
            (λ at free. asked (free_dbs V.standing.database free 0) (own_member self.old) at now id call.now (is_short free.short))
            (up_server self.new) out.old out.new) }
        ensures memory { IsErrOf result StoreFault.DiskFault ⊎ IsOk result }
    {
        let Some(writes) = V::writes(call) else {
            put_reply(out, id, Reply::Malformed);
            return Ok(());
        };
        match turn_of(&self.state, now, writes) {
            Turn::Refuse(reply) => {
                put_reply(out, id, reply);
                Ok(())
            }
            Turn::Read => self.read(now, id, call, out),
            Turn::ReadOwn => self.read_own(now, id, call, out),
            Turn::Wait => {
                self.state.put_in_line(id, call, out);
                Ok(())
            }
            Turn::Write => self.write_turn(now, id, call, out),
        }
    }

    /// Replies to a call that reads the announced image: during a write in flight the one before it.
    fn read(&mut self, now: u32, id: u32, call: &[u8], out: &mut Outputs) -> Result<(), StoreFault>
        requires not_halted { self.old.store.failed ≡ false }
        requires few { length out.old ≤ 100 }
        ensures ends { ReadsFrom D.Disk V.standing (held self.old) (held self.new) (announced_image (up_server self.old)) now id call.now out.old out.new result }
        ensures alike { OnOk result (ReadsAlike V.standing.database (up_server self.old) now id call.now (announced_image (up_server self.old)) (up_server self.new) out.old out.new) }
        ensures memory { IsErrOf result StoreFault.DiskFault ⊎ IsOk result }
    {
        let Some(write) = self.state.in_flight() else {
            return self.read_own(now, id, call, out);
        };
        let made = evaluate_before::<D, V>(self.alloc, &mut self.store, write.flight(), now, call);
        answer_read(id, made, out)
    }

    /// Replies to a call that reads the own image.
    fn read_own(
        &mut self,
        now: u32,
        id: u32,
        call: &[u8],
        out: &mut Outputs,
    ) -> Result<(), StoreFault>
        requires not_halted { self.old.store.failed ≡ false }
        requires few { length out.old ≤ 100 }
        ensures ends { ReadsFrom D.Disk V.standing (held self.old) (held self.new) self.old.state.image now id call.now out.old out.new result }
        ensures alike { OnOk result (ReadsAlike V.standing.database (up_server self.old) now id call.now self.old.state.image (up_server self.new) out.old out.new) }
        ensures memory { IsErrOf result StoreFault.DiskFault ⊎ IsOk result }
    {
        let made = evaluate::<D, V>(self.alloc, &mut self.store, now, call);
        answer_read(id, made, out)
    }

    /// The turn of a writing call, where no write is in flight. Want of memory is a reply to it, and then all is as before.
    pub(crate) fn write_turn(
        &mut self,
        now: u32,
        id: u32,
        call: &[u8],
        out: &mut Outputs,
    ) -> Result<(), StoreFault>
        requires not_halted { self.old.store.failed ≡ false }
        requires serving { IsServing self.old.state.recovery }
        requires free { own_of self.old.state.writes ≡ None }
        requires few { length out.old + length (waiting_of self.old.state.writes) ≤ 180 }
        ensures ends { EndsSo D.Disk V.standing (IsSome (D.files self.old.store.disk))
            (λ o. write_turn (dbs_of o 0) (own_member self.old) (up_server self.old) now id call.now (is_short o.short))
            out.old out.new (held self.old) (held self.new) result }
        ensures alike { OnOk result (TurnsAlike V.standing.database (own_member self.old) (up_server self.old) now id call.now
            (up_server self.new) out.old out.new) }
        ensures line { length (waiting_of self.new.state.writes) ≤ length (waiting_of self.old.state.writes) }
        ensures rests { 1 < length self.old.state.cell → OnOk result (is_free (up_server self.new) ≡ true → IsRepliedTo D.Disk out.old out.new (held self.old) (held self.new)) }
        ensures memory { IsErrOf result StoreFault.DiskFault ⊎ IsOk result }
    {
        let before = out.len();
        let fault = match self.make_write(now, id, call, out) {
            Ok(()) => return Ok(()),
            Err(fault) => fault,
        };
        match fault {
            StoreFault::DiskFault => Err(StoreFault::DiskFault),
            _ => {
                out.cut(before);
                put_reply(out, id, Reply::NoMemory);
                Ok(())
            }
        }
    }

    /// A writing call at its turn is evaluated, and then replied to or made. Where memory runs out all is as before, but that some packets may
    /// stand behind the other outputs.
    fn make_write(
        &mut self,
        now: u32,
        id: u32,
        call: &[u8],
        out: &mut Outputs,
    ) -> Result<(), StoreFault>
        requires not_halted { self.old.store.failed ≡ false }
        requires serving { IsServing self.old.state.recovery }
        requires free { own_of self.old.state.writes ≡ None }
        requires few { length out.old + length (waiting_of self.old.state.writes) ≤ 180 }
        ensures ends { EndsSo D.Disk V.standing (IsSome (D.files self.old.store.disk))
            (λ o. write_turn (dbs_of o 0) (own_member self.old) (up_server self.old) now id call.now false)
            out.old out.new (held self.old) (held self.new) result }
        ensures alike { OnOk result (TurnsAlike V.standing.database (own_member self.old) (up_server self.old) now id call.now
            (up_server self.new) out.old out.new) }
        ensures front { OnErr result (take (length out.old) out.new ≡ out.old) }
        ensures line { length (waiting_of self.new.state.writes) ≤ length (waiting_of self.old.state.writes) }
        ensures rests { 1 < length self.old.state.cell → OnOk result (is_free (up_server self.new) ≡ true → IsRepliedTo D.Disk out.old out.new (held self.old) (held self.new)) }
    {
        let made = evaluate::<D, V>(self.alloc, &mut self.store, now, call)?;
        match verdict_of::<V>(&self.state, made) {
            Verdict::Reply(reply) => {
                put_reply(out, id, reply);
                Ok(())
            }
            Verdict::NewPoll => {
                self.state.last_counter(now, id, out);
                Ok(())
            }
            Verdict::Commit { answer, changes } => {
                if self.state.cell.len() == 1 {
                    self.commit(id, answer, &changes, out)
                } else {
                    self.begin_write(now, id, call, answer, &changes, out)
                }
            }
        }
    }

    /// Commits changes under the next counter, announces it, and answers the call: a server that is alone in its cell is a majority.
    fn commit(
        &mut self,
        id: u32,
        answer: Bytes,
        changes: &Changes,
        out: &mut Outputs,
    ) -> Result<(), StoreFault>
        requires not_halted { self.old.store.failed ≡ false }
        requires serving { IsServing self.old.state.recovery }
        requires free { own_of self.old.state.writes ≡ None }
        requires counter { self.old.state.version.counter < MAX_COUNTER }
        requires alone { length self.old.state.cell ≡ 1 }
        requires within { too_large 0 (length self.old.state.image) changes.now ≡ None }
        requires answer { IsAnswer answer }
        requires few { length out.old ≤ 180 }
        ensures ends { (now : ℕ) (call image : List ℕ) → Ends D.Disk (IsSome (D.files self.old.store.disk) × IsWritten self.old.state.image image changes.now)
            (written_in (own_member self.old) (up_server self.old) now id call answer image changes.now (up_server self.old).phase)
            out.old out.new (held self.old) (held self.new) result }
        ensures alike { (now : ℕ) (call old image : List ℕ) → length old ≡ length self.old.state.image → IsWritten old image changes.now
            → OnOk result (IsAlike (written_in (own_member self.old) (over (up_server self.old) old) now id call answer image changes.now
            (up_server self.old).phase) (up_server self.new) out.old out.new) }
        ensures front { OnErr result (take (length out.old) out.new ≡ out.old) }
        ensures line { length (waiting_of self.new.state.writes) ≤ length (waiting_of self.old.state.writes) }
    {
        let next = self.next_version();
        commit_all(&mut self.store, changes, next)?;
        let image = HeldImage::of(&self.store);
        self.state.take_commit(next, image);
        out.put(Output::Announce { version: next });
        put_reply(out, id, Reply::Ok(answer));
        Ok(())
    }

    /// The version under the next counter.
    pub(crate) fn next_version(&self) -> Version
        requires { self.now.state.version.counter < MAX_COUNTER }
        ensures { result ≡ next_version self.now.state.version }
    {
        Version {
            epoch: self.state.version.epoch,
            counter: self.state.version.counter + 1,
        }
    }
}

/// Replies to a call that reads, given what the database made of it. A fault of the disk is handed on.
fn answer_read(
    id: u32,
    made: Result<Evaluation, StoreFault>,
    out: &mut Outputs,
) -> Result<(), StoreFault>
    requires few { length out.old ≤ 100 }
    requires short { IfOk made (λ made. IsShortReply made.reply) }
    ensures fault { IsErrOf result StoreFault.DiskFault ↔ IsErrOf made StoreFault.DiskFault }
    ensures memory { IsErrOf result StoreFault.DiskFault ⊎ IsOk result }
    ensures out { OnErr result (out.new ≡ out.old) }
    ensures replied { OnOk result ((reply : Reply) × (out.new ≡ out.old ++ outputs.Reply id reply ∷ []) × IsReadReply made reply) }
{
    match made {
        Ok(made) => put_reply(out, id, reply_of(made.reply)),
        Err(StoreFault::DiskFault) => return Err(StoreFault::DiskFault),
        Err(_) => put_reply(out, id, Reply::NoMemory),
    }
    Ok(())
}

/// Puts a reply out.
#[tactic(auto, using(server_state::proofs::Plain::spelled_reply))]
pub(crate) fn put_reply(out: &mut Outputs, id: u32, reply: Reply)
    requires room { length out.old < 200 }
    requires plain { IsPlainReply reply }
    ensures { out.new ≡ out.old ++ outputs.Reply id reply ∷ [] }
{
    out.put(Output::Reply { id, reply });
}
