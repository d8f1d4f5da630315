//! Recovery: relabelling, the own database or a fetched one: it gets the first version of a moment past its epoch, and goes to the servers that
//! answered the poll. All memory is taken before the disk is changed.
ghost use Rattle.std.specs.Prelude.{◌≡◌, ◌≤◌, length, true, false, IsSome, OnOk};
ghost use Rattle.ubik_types.specs.declared.limits.TheConstants.{MAX_IMAGE};
ghost use Rattle.ubik_types.specs.Version.{IsVersion, version_lt};
ghost use Rattle.cell_model.specs.Recovery.{installed, relabelled_to};
ghost use Rattle.cell_model.specs.Step.{followed};
ghost use Rattle.cell_model.specs.Writes.{settled};
ghost use Rattle.ubik_recovery.specs.Record.{polled_of};
ghost use Rattle.server_rules.specs.Acts.{IsOver, MayTake};
ghost use Rattle.server_state.specs.Receiving.{received_in};
ghost use Rattle.server_state.specs.Recovering.{IsOfCell};

use crate::nodes::Node;
use crate::pieces::first_piece;
use crate::receiver::install_received;
use db_image::DraftService;
use disk_base::Disk;
use server_state::{Given, HeldImage, Outputs};
use ubik_calls::MAX_PIECE;
use ubik_recovery::Recovery;
use ubik_store::StoreFault;
use ubik_types::{Version, bytes_of};

impl<D: Disk, V: DraftService> Node<D, V> {
    ghost use Rattle.ubik_node.specs.Alike.{IsAlike};
    ghost use Rattle.ubik_node.specs.Node.{Ends, held, Knows, own_member, up_server};

    /// The database gets a version, the first of its epoch, for the poll of a recovery.
    pub(crate) fn relabel(
        &mut self,
        next: Recovery,
        new: Version,
        out: &mut Outputs,
    ) -> Result<(), StoreFault>
        requires not_halted { self.old.store.failed ≡ false }
        requires few { length out.old ≤ 120 }
        requires may { MayTake self.old.state new }
        requires of_cell { IsOfCell (length self.old.state.cell) next }
        ensures ends { Ends D.Disk (Knows D.Disk self.old)
            (followed (relabelled_to (own_member self.old) (up_server self.old) (polled_of next) new) (settled (own_member self.old)))
            out.old out.new (held self.old) (held self.new) result }
        ensures alike { OnOk result (IsAlike
            (followed (relabelled_to (own_member self.old) (up_server self.old) (polled_of next) new) (settled (own_member self.old)))
            (up_server self.new) out.old out.new) }
    {
        let piece = first_piece(self.alloc, &mut self.store, self.state.cell.len())?;
        let given = Given {
            poll: next.poll(),
            old: self.state.version,
            new,
            total: self.state.image.len(),
            piece,
        };
        self.state.give(self.alloc, &next, &given, out)?;
        self.store.relabel(new)?;
        self.state.begin_sending(next, new);
        self.state.settle(out);
        Ok(())
    }

    /// Another server's whole image is installed, and then relabelled, for the poll of a recovery.
    pub(crate) fn install_and_relabel(
        &mut self,
        next: Recovery,
        new: Version,
        best: Version,
        out: &mut Outputs,
    ) -> Result<(), StoreFault>
        requires not_halted { self.old.store.failed ≡ false }
        requires few { length out.old ≤ 100 }
        requires may { MayTake self.old.state best }
        requires over { IsOver self.old.state next }
        requires new { IsVersion new }
        requires newer { version_lt best new ≡ true }
        requires text { IsSome self.old.state.recovery.text }
        requires fits { length (received_in self.old.state) ≤ MAX_IMAGE }
        ensures ends { Ends D.Disk (IsSome (D.files self.old.store.disk))
            (followed (installed (up_server self.old) best (received_in self.old.state)) (λ after.
            followed (relabelled_to (own_member self.old) after (polled_of next) new) (settled (own_member self.old))))
            out.old out.new (held self.old) (held self.new) result }
        ensures alike { OnOk result (IsAlike (followed (installed (up_server self.old) best (received_in self.old.state)) (λ after.
            followed (relabelled_to (own_member self.old) after (polled_of next) new) (settled (own_member self.old))))
            (up_server self.new) out.old out.new) }
    {
        let text = self.state.recovery.received();
        let first = &text[..text.len().min(MAX_PIECE)];
        let given = Given {
            poll: next.poll(),
            old: best,
            new,
            total: text.len() as u32,
            piece: bytes_of(self.alloc, first)?,
        };
        self.state.give(self.alloc, &next, &given, out)?;
        install_received(&mut self.store, &mut self.state, best)?;
        self.store.relabel(new)?;
        self.state.take_over(best, HeldImage::of(&self.store));
        self.state.begin_sending(next, new);
        self.state.settle(out);
        Ok(())
    }
}
