//! Receiver: what a server takes over of another one's database: a version, a write, or an image. All memory is taken before the disk is changed.
ghost use Rattle.std.specs.Prelude.{ℕ, List, ◌≡◌, ◌≤◌, [], length, true, false, None, Some, IfSome, IsErrOf, IsSome, MatchResult, OnOk, OnErr};
ghost use Rattle.ubik_types.specs.declared.limits.TheConstants.{MAX_IMAGE};
ghost use Rattle.ubik_types.specs.Logged.{too_large};
ghost use Rattle.ubik_types.specs.Phase as phases;
ghost use Rattle.ubik_types.specs.Version.{IsVersion, version_lt};
ghost use Rattle.cell_model.specs.Receiver.{answers_version_kept, committed_by, relabelled_by};
ghost use Rattle.cell_model.specs.Recovery.{installed};
ghost use Rattle.cell_model.specs.Step.{followed, quiet, with_database, with_phase};
ghost use Rattle.ubik_recovery.specs.Record.{polled_of, with_text};
ghost use Rattle.ubik_recovery.specs.Text.{with_piece};
ghost use Rattle.server_rules.specs.Acts.{CanFollow, EndsText, IsOver, MayTake, begins_text, then_ended};
ghost use Rattle.server_state.specs.Receiving.{received_in};
ghost use Rattle.server_state.specs.Recovering.{IsServing};
ghost use Rattle.server_state.specs.State.{Keeps, server_of, server_with};
ghost use Rattle.ubik_store.specs.DurableCall.{EndsAs, IsDurableIn, Rewrites};
ghost use Rattle.ubik_store.specs.Rewrite.Rewrite.{Replaced};
ghost use Rattle.ubik_store.specs.Store.{IsSound, IsTooLong, image_in};

use crate::database::commit_all;
use crate::nodes::Node;
use db_image::DraftService;
use disk_base::Disk;
use server_rules::TextEnd;
use server_state::{HeldImage, Outputs, State};
use ubik_calls::Body;
use ubik_recovery::{CollectedText, Recovery, TextSource};
use ubik_store::{Store, StoreFault};
use ubik_types::{Changes, Host, Version};

impl<D: Disk, V: DraftService> Node<D, V> {
    ghost use Rattle.ubik_node.specs.Alike.{IsAlike};
    ghost use Rattle.ubik_node.specs.Node.{Ends, held, own_member, up_server};

    /// The database gets another version, and a host is told so.
    pub(crate) fn take_version(
        &mut self,
        to: Host,
        new: Version,
        out: &mut Outputs,
    ) -> Result<(), StoreFault>
        requires not_halted { self.old.store.failed ≡ false }
        requires few { length out.old ≤ 100 }
        requires may { MayTake self.old.state new }
        ensures { Ends D.Disk (Unit {0}) (followed (relabelled_by (up_server self.old) new) (answers_version_kept (own_member self.old) to))
            out.old out.new (held self.old) (held self.new) result }
    {
        self.store.relabel(new)?;
        self.state.relabel(new);
        self.state.send(to, Body::VersionKept { version: new }, out);
        Ok(())
    }

    /// The changes of another server's write are made one durable call, under its version, and a host is told so.
    pub(crate) fn take_write(
        &mut self,
        to: Host,
        new: Version,
        changes: &Changes,
        out: &mut Outputs,
    ) -> Result<(), StoreFault>
        requires not_halted { self.old.store.failed ≡ false }
        requires few { length out.old ≤ 100 }
        requires may { MayTake self.old.state new }
        requires fits { too_large 0 (length self.old.state.image) changes.now ≡ None }
        ensures ends { Ends D.Disk (IsSome (D.files self.old.store.disk))
            (followed (committed_by (up_server self.old) new changes.now) (answers_version_kept (own_member self.old) to))
            out.old out.new (held self.old) (held self.new) result }
        ensures alike { OnOk result (IsAlike
            (followed (committed_by (up_server self.old) new changes.now) (answers_version_kept (own_member self.old) to))
            (up_server self.new) out.old out.new) }
    {
        commit_all(&mut self.store, changes, new)?;
        self.state.take_over(new, HeldImage::of(&self.store));
        self.state.send(to, Body::VersionKept { version: new }, out);
        Ok(())
    }

    /// The last piece of another server's image has come: the image is installed. Where it is not, the text is as before.
    pub(crate) fn end_text(
        &mut self,
        end: TextEnd,
        source: TextSource,
        offset: u32,
        bytes: &[u8],
        out: &mut Outputs,
    ) -> Result<(), StoreFault>
        requires not_halted { self.old.store.failed ≡ false }
        requires few { length out.old ≤ 100 }
        requires may { MayTake self.old.state source.version }
        requires follow { CanFollow self.old.state source.version end }
        requires ends { EndsText (begins_text end self.old.state.recovery.text) self.old.state.recovery.text source offset bytes.now }
        ensures ends { Ends D.Disk (IsSome (D.files self.old.store.disk))
            (followed (installed (up_server self.old) source.version (with_piece source offset bytes.now self.old.state.recovery.text).bytes)
            (then_ended (own_member self.old) end)) out.old out.new (held self.old) (held self.new) result }
        ensures alike { OnOk result (IsAlike
            (followed (installed (up_server self.old) source.version (with_piece source offset bytes.now self.old.state.recovery.text).bytes)
            (then_ended (own_member self.old) end))
            (up_server self.new) out.old out.new) }
    {
        let before = self.state.put_piece(source, offset, bytes)?;
        match self.text_ended(end, source.version, out) {
            Ok(()) => Ok(()),
            Err(fault) => {
                self.state.take_back(before);
                Err(fault)
            }
        }
    }

    /// Another server's whole image is installed, and what follows is done.
    fn text_ended(
        &mut self,
        end: TextEnd,
        version: Version,
        out: &mut Outputs,
    ) -> Result<(), StoreFault>
        requires not_halted { self.old.store.failed ≡ false }
        requires few { length out.old ≤ 100 }
        requires may { MayTake self.old.state version }
        requires follow { CanFollow self.old.state version end }
        requires text { IsSome self.old.state.recovery.text }
        requires fits { length (received_in self.old.state) ≤ MAX_IMAGE }
        ensures ends { Ends D.Disk (IsSome (D.files self.old.store.disk))
            (followed (installed (up_server self.old) version (received_in self.old.state)) (then_ended (own_member self.old) end))
            out.old out.new (held self.old) (held self.new) result }
        ensures alike { OnOk result (IsAlike
            (followed (installed (up_server self.old) version (received_in self.old.state)) (then_ended (own_member self.old) end))
            (up_server self.new) out.old out.new) }
    {
        match end {
            TextEnd::Told { to } => self.take_image(to, version, out),
            TextEnd::Waits { next } => self.install_and_wait(next, version),
            TextEnd::Relabelled { next, new } => {
                self.install_and_relabel(next, new, version, out)
            }
        }
    }

    /// Another server's whole image is taken over, and a host is told so.
    fn take_image(
        &mut self,
        to: Host,
        version: Version,
        out: &mut Outputs,
    ) -> Result<(), StoreFault>
        requires not_halted { self.old.store.failed ≡ false }
        requires few { length out.old ≤ 100 }
        requires may { MayTake self.old.state version }
        requires text { IsSome self.old.state.recovery.text }
        requires fits { length (received_in self.old.state) ≤ MAX_IMAGE }
        ensures ends { Ends D.Disk (IsSome (D.files self.old.store.disk))
            (followed (installed (up_server self.old) version (received_in self.old.state)) (answers_version_kept (own_member self.old) to))
            out.old out.new (held self.old) (held self.new) result }
        ensures alike { OnOk result (IsAlike
            (followed (installed (up_server self.old) version (received_in self.old.state)) (answers_version_kept (own_member self.old) to))
            (up_server self.new) out.old out.new) }
    {
        self.install(version)?;
        self.state.send(to, Body::VersionKept { version }, out);
        Ok(())
    }

    /// Another server's whole image is installed, and waits for its relabelling.
    fn install_and_wait(&mut self, next: Recovery, version: Version) -> Result<(), StoreFault>
        requires not_halted { self.old.store.failed ≡ false }
        requires may { MayTake self.old.state version }
        requires over { IsOver self.old.state next }
        requires text { IsSome self.old.state.recovery.text }
        requires fits { length (received_in self.old.state) ≤ MAX_IMAGE }
        ensures ends { Ends D.Disk (IsSome (D.files self.old.store.disk))
            (followed (installed (up_server self.old) version (received_in self.old.state)) (λ after. quiet (with_phase after (phases.Relabel (polled_of next)))))
            [] [] (held self.old) (held self.new) result }
        ensures alike { OnOk result (IsAlike
            (followed (installed (up_server self.old) version (received_in self.old.state)) (λ after. quiet (with_phase after (phases.Relabel (polled_of next)))))
            (up_server self.new) [] []) }
    {
        self.install(version)?;
        self.state.wait(next);
        Ok(())
    }

    /// Takes the whole image of another server over, under its version.
    fn install(&mut self, version: Version) -> Result<(), StoreFault>
        requires resting { ¬ IsServing self.old.state.recovery }
        requires not_halted { self.old.store.failed ≡ false }
        requires text { IsSome self.old.state.recovery.text }
        requires fits { length (received_in self.old.state) ≤ MAX_IMAGE }
        requires version { IsVersion version }
        requires newer { version_lt self.old.state.version version ≡ true }
        ensures ends { Ends D.Disk (IsSome (D.files self.old.store.disk)) (installed (up_server self.old) version (received_in self.old.state)) [] [] (held self.old) (held self.new) result }
        ensures bytes { OnOk result ((bytes : List ℕ) × (length bytes ≡ length (received_in self.old.state))
            × (up_server self.new ≡ with_database (up_server self.old) version bytes)) }
        ensures resting { OnOk result (¬ IsServing self.new.state.recovery) }
    {
        install_received(&mut self.store, &mut self.state, version)?;
        self.state.take_over(version, HeldImage::of(&self.store));
        Ok(())
    }
}

/// Installs the text that a server has received, under its version, without copying it. Where it is not installed the server has it again.
pub(crate) fn install_received<D: Disk>(
    store: &mut Store<D>,
    state: &mut State,
    version: Version,
) -> Result<(), StoreFault>
    requires sound { IsSound D.Disk store.old }
    requires none { store.old.begun ≡ None }
    requires version { IsVersion version }
    requires text { IsSome state.old.recovery.text }
    requires fits { length (received_in state.old) ≤ MAX_IMAGE }
    ensures sound { IsSound D.Disk store.new }
    ensures ended { MatchResult result (λ _. Rewrites D.Disk (Replaced (received_in state.old)) version store.old store.new)
        (EndsAs D.Disk (IsTooLong (received_in state.old)) version store.old store.new) }
    ensures image { OnOk result (IfSome (D.files store.old.disk) (λ _.
        image_in (D.files store.new.disk) ≡ Some (received_in state.old))) }
    ensures durable { store.old.failed ≡ false → IsDurableIn D.Disk (Replaced (received_in state.old)) version
        store.old store.new (IsErrOf result StoreFault.DiskFault) }
    ensures recovery { OnOk result (state.new.recovery ≡ with_text state.old.recovery None) }
    ensures after { OnOk result (server_of state.new ≡ server_with state.old (with_text state.old.recovery None)) }
    ensures back { OnErr result (server_of state.new ≡ server_of state.old) }
    ensures kept { Keeps state.old state.new }
{
    match state.take_text() {
        Some(own) => match store.install_text(own.text, version) {
            Ok(()) => Ok(()),
            Err(refused) => {
                state.put_text(CollectedText {
                    source: own.source,
                    text: refused.text,
                });
                Err(refused.why)
            }
        },
        None => unreachable!(),
    }
}
