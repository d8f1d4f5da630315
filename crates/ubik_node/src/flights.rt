//! The own write of a sync site: it is committed here first, goes to each other server, and is over once a majority has it.
ghost use Rattle.std.specs.Prelude.{◌≡◌, ◌≤◌, ◌<◌, ◌^◌, ◌⊎◌, ℕ, None, length, take, false, IfOk, IfErr, IfSome, IsErrOf, IsSome, List, OnErr, OnOk};
ghost use Rattle.ubik_types.specs.declared.versions.TheConstants.{MAX_COUNTER};
ghost use Rattle.ubik_types.specs.Logged.{too_large};
ghost use Rattle.xdr_base.specs.ChangeText.{text_of};
ghost use Rattle.db_image.specs.Blocks.{PutSome};
ghost use Rattle.disk_base.specs.Runs.{OnlyReads};
ghost use Rattle.site_writes.specs.OwnWrite.{own_write};
ghost use Rattle.ubik_store.specs.DurableCall.{HasFailed};
ghost use Rattle.ubik_store.specs.Store.{IsSound, StaysAsItWas, image_in};
ghost use Rattle.ubik_write.specs.Flight.{IsFlightOf, Undoes};
ghost use Rattle.server_state.specs.Plain.{IsAnswer};
ghost use Rattle.server_state.specs.Recovering.{IsServing};
ghost use Rattle.server_state.specs.Writing.{own_of, waiting_of};

use crate::database::commit_all;
use crate::faults::{ImageFault, outcome_over};
use crate::nodes::Node;
use crate::store_images::StoreImage;
use db_image::DraftService;
use disk_base::Disk;
use ghost_values::Tally;
use server_state::{HeldImage, Outputs, own_write};
use std::alloc::Global;
use ubik_store::{Store, StoreFault};
use ubik_types::{Bytes, Changes, MAXSERVERS, Marks, Version};
use ubik_write::Flight;

/// The flight of changes that are to be made to the image of a store, of which it reads what they overwrite.
pub fn flight_over<D: Disk>(
    alloc: Global,
    store: &mut Store<D>,
    id: u32,
    old: Version,
    new: Version,
    now: u32,
    changes: &Changes,
) -> Result<Flight, StoreFault>
    requires sound { IsSound D.Disk store.old }
    requires fresh { store.old.failed ≡ false }
    requires short { length (text_of changes.now) < 2 ^ 32 }
    ensures flight { IfOk result (λ f. IsFlightOf id old new now changes.now f) }
    ensures undo { IfOk result (λ f. IfSome (image_in (D.files store.old.disk)) (λ bytes. Undoes f bytes changes.now)) }
    ensures len { IfOk result (λ f. f.old_len ≡ store.old.len) }
    ensures sound { IsSound D.Disk store.new }
    ensures same { ¬ IsErrOf result StoreFault.DiskFault → StaysAsItWas store.old store.new }
    ensures failed { IsErrOf result StoreFault.DiskFault → HasFailed store.old store.new }
    ensures fault { IfErr result (λ fault. (fault ≡ StoreFault.DiskFault) ⊎ (fault ≡ StoreFault.NoMemory)) }
    ensures disk { OnlyReads D.Disk store.old.disk store.new.disk (IsErrOf result StoreFault.DiskFault) }
{
    let mut image = StoreImage {
        store,
        faults: Tally::new(),
    };
    let made = Flight::make(alloc, id, old, new, now, changes, &mut image);
    let StoreImage {
        store,
        faults: _faults,
    } = image;
    let failed = store.failed();
    // From here on the store is known again.
    let _store = store;
    outcome_over(failed, made.map_err(ImageFault::from))
}

impl<D: Disk, V: DraftService> Node<D, V> {
    ghost use Rattle.cell_model.specs.Writes.{written_in};
    ghost use Rattle.state_laws.specs.Over.{over};
    ghost use Rattle.ubik_node.specs.Alike.{IsAlike};
    ghost use Rattle.ubik_node.specs.Node.{Ends, held, own_member, up_server};
    ghost use Rattle.ubik_node.specs.Verdict.{IsWritten};

    /// Commits changes under the next counter, and sends them to the other servers: they are in flight until a majority has them. All memory is
    /// taken before the commit, so the packets are made before it.
    pub(crate) fn begin_write(
        &mut self,
        now: u32,
        id: u32,
        call: &[u8],
        answer: Bytes,
        changes: &Changes,
        out: &mut Outputs,
    ) -> Result<(), StoreFault>
        requires not_halted { self.old.store.failed ≡ false }
        requires serving { IsServing self.old.state.recovery }
        requires free { own_of self.old.state.writes ≡ None }
        requires counter { self.old.state.version.counter < MAX_COUNTER }
        requires others { 1 < length self.old.state.cell }
        requires within { too_large 0 (length self.old.state.image) changes.now ≡ None }
        requires puts { PutSome changes.now }
        requires answer { IsAnswer answer }
        ensures ends { (image : List ℕ) → Ends D.Disk (IsSome (D.files self.old.store.disk) × IsWritten self.old.state.image image changes.now)
            (written_in (own_member self.old) (up_server self.old) now id call.now answer image changes.now (up_server self.old).phase)
            out.old out.new (held self.old) (held self.new) result }
        ensures alike { (old image : List ℕ) → length old ≡ length self.old.state.image → IsWritten old image changes.now
            → OnOk result (IsAlike (written_in (own_member self.old) (over (up_server self.old) old) now id call.now answer image changes.now
            (up_server self.old).phase) (up_server self.new) out.old out.new) }
        ensures writing { OnOk result (IsSome (own_of self.new.state.writes)) }
        ensures front { OnErr result (take (length out.old) out.new ≡ out.old) }
        ensures line { length (waiting_of self.new.state.writes) ≤ length (waiting_of self.old.state.writes) }
    {
        let old = self.state.version;
        let next = self.next_version();
        let flight = flight_over(self.alloc, &mut self.store, id, old, next, now, changes)?;
        self.state.hold_place(self.alloc, id)?;
        let nobody = Marks {
            set: [false; MAXSERVERS],
        };
        self.state
            .spread_write(self.alloc, &flight, next, &nobody, out)?;
        commit_all(&mut self.store, changes, next)?;
        let image = HeldImage::of(&self.store);
        let write = own_write(flight, answer, call, changes, &image);
        self.state.begin_flight(next, image, write);
        Ok(())
    }
}
