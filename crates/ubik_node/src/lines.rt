//! The line of those that wait for the write in flight, and their turns.
ghost use Rattle.std.specs.Prelude.{◌≡◌, ◌≤◌, ◌<◌, ◌⊎◌, [], length, false, IsErrOf, IsOk, IsSome, OnOk};
ghost use Rattle.cell_model.specs.Writes.{is_free, next_turns, settled_with_turns};
ghost use Rattle.server_state.specs.Writing.{waiting_of};

use crate::nodes::Node;
use db_image::DraftService;
use disk_base::Disk;
use server_state::Outputs;
use ubik_store::StoreFault;

impl<D: Disk, V: DraftService> Node<D, V> {
    ghost use Rattle.ubik_node.specs.Alike.{AlikeSo, free_dbs};
    ghost use Rattle.ubik_node.specs.Choices.{dbs_of};
    ghost use Rattle.ubik_node.specs.Node.{EndsSo, held, own_member, up_server};

    /// Holders have come: a write that a majority has is over, and those that wait have their turns.
    pub(crate) fn settle_with_turns(
        &mut self,
        now: u32,
        out: &mut Outputs,
    ) -> Result<(), StoreFault>
        requires not_halted { self.old.store.failed ≡ false }
        requires few { length out.old ≤ 100 }
        ensures ends { EndsSo D.Disk V.standing (IsSome (D.files self.old.store.disk))
            (λ o. settled_with_turns (dbs_of o) (own_member self.old) (up_server self.old) now o.short)
            out.old out.new (held self.old) (held self.new) result }
        ensures alike { OnOk result (AlikeSo V.standing.database (up_server self.old)
            (λ at free. settled_with_turns (free_dbs V.standing.database free) (own_member self.old) at now free.short)
            (up_server self.new) out.old out.new) }
        ensures memory { IsErrOf result StoreFault.DiskFault ⊎ IsOk result }
    {
        self.state.settle(out);
        self.take_turns(now, out)
    }

    /// The turns of those that wait, in their order, until one of them is in flight or a new poll has begun.
    fn take_turns(&mut self, now: u32, out: &mut Outputs) -> Result<(), StoreFault>
        requires not_halted { self.old.store.failed ≡ false }
        requires few { length out.old ≤ 102 }
        ensures ends { EndsSo D.Disk V.standing (IsSome (D.files self.old.store.disk))
            (λ o. next_turns (dbs_of o) (own_member self.old) now (up_server self.old).waiting (up_server self.old) o.short)
            out.old out.new (held self.old) (held self.new) result }
        ensures alike { OnOk result (AlikeSo V.standing.database (up_server self.old)
            (λ at free. next_turns (free_dbs V.standing.database free) (own_member self.old) now at.waiting at free.short)
            (up_server self.new) out.old out.new) }
        ensures memory { IsErrOf result StoreFault.DiskFault ⊎ IsOk result }
        ensures nobody { waiting_of self.old.state.writes ≡ [] → IsOk result }
    {
        while self.state.is_free() {
            let Some(asked) = self.state.next_asked() else {
                return Ok(());
            };
            self.write_turn(now, asked.id, asked.call.as_slice(), out)?;
        }
        Ok(())
    }
}
