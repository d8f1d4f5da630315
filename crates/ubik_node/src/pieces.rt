//! Pieces of the own image, as the store has it.
ghost use Rattle.std.specs.Prelude.{◌≡◌, ◌⊎◌, ◌+◌, ◌-◌, ◌≤◌, ◌<◌, min, drop, length, take, false, IfOk, IfErr, IfSome, IsErrOf};
ghost use Rattle.disk_base.specs.Runs.{OnlyReads};
ghost use Rattle.cell_model.specs.Pieces.{piece_from};
ghost use Rattle.ubik_calls.specs.declared.packets.TheConstants.{MAX_PIECE};
ghost use Rattle.ubik_store.specs.DurableCall.{HasFailed};
ghost use Rattle.ubik_store.specs.Store.{IsSound, StaysAsItWas, image_in};
ghost use Rattle.server_state.specs.Plain.{IsPiece};

use disk_base::Disk;
use std::alloc::Global;
use ubik_calls::MAX_PIECE;
use ubik_store::{Store, StoreFault};
use ubik_types::{Bytes, NoMemory};

/// So many zero bytes.
fn room_for(alloc: Global, len: usize) -> Result<Vec<u8>, NoMemory>
    ensures { IfOk result (λ room. length room.items ≡ len) }
{
    Ok(vec![in alloc; 0u8; len]?)
}

/// So many bytes of the image from a place on, which lie within it.
fn read_bytes<D: Disk>(
    alloc: Global,
    store: &mut Store<D>,
    at: u32,
    len: usize,
) -> Result<Vec<u8>, StoreFault>
    requires sound { IsSound D.Disk store.old }
    requires fresh { store.old.failed ≡ false }
    requires within { at + len ≤ store.old.len }
    ensures bytes { IfOk result (λ bytes. IfSome (image_in (D.files store.old.disk)) (λ image. bytes.items ≡ take len (drop at image))) }
    ensures len { IfOk result (λ bytes. length bytes.items ≡ len) }
    ensures sound { IsSound D.Disk store.new }
    ensures same { ¬ IsErrOf result StoreFault.DiskFault → StaysAsItWas store.old store.new }
    ensures failed { IsErrOf result StoreFault.DiskFault → HasFailed store.old store.new }
    ensures fault { IfErr result (λ fault. (fault ≡ StoreFault.DiskFault) ⊎ (fault ≡ StoreFault.NoMemory)) }
    ensures disk { OnlyReads D.Disk store.old.disk store.new.disk (IsErrOf result StoreFault.DiskFault) }
{
    let mut bytes = room_for(alloc, len)?;
    store.read(at, &mut bytes)?;
    Ok(bytes)
}

/// The piece of the image from a place on.
pub fn read_piece<D: Disk>(
    alloc: Global,
    store: &mut Store<D>,
    at: u32,
) -> Result<Bytes, StoreFault>
    requires sound { IsSound D.Disk store.old }
    requires fresh { store.old.failed ≡ false }
    requires within { at ≤ store.old.len }
    ensures piece { IfOk result (λ piece. IfSome (image_in (D.files store.old.disk)) (λ image. piece ≡ piece_from image at)) }
    ensures len { IfOk result (λ piece. length piece ≡ min MAX_PIECE (store.old.len - at)) }
    ensures short { IfOk result IsPiece }
    ensures sound { IsSound D.Disk store.new }
    ensures same { ¬ IsErrOf result StoreFault.DiskFault → StaysAsItWas store.old store.new }
    ensures failed { IsErrOf result StoreFault.DiskFault → HasFailed store.old store.new }
    ensures fault { IfErr result (λ fault. (fault ≡ StoreFault.DiskFault) ⊎ (fault ≡ StoreFault.NoMemory)) }
    ensures disk { OnlyReads D.Disk store.old.disk store.new.disk (IsErrOf result StoreFault.DiskFault) }
{
    let len = MAX_PIECE.min((store.len() - at) as usize);
    let bytes = read_bytes(alloc, store, at, len)?;
    Ok(Bytes::new(bytes))
}

/// The first piece of the image, where a cell of so many servers has another one to send it to.
pub fn first_piece<D: Disk>(
    alloc: Global,
    store: &mut Store<D>,
    servers: usize,
) -> Result<Bytes, StoreFault>
    requires sound { IsSound D.Disk store.old }
    requires fresh { store.old.failed ≡ false }
    ensures piece { IfOk result (λ piece. 1 < servers → IfSome (image_in (D.files store.old.disk)) (λ image. piece ≡ piece_from image 0)) }
    ensures len { IfOk result (λ piece. 1 < servers → length piece ≡ min MAX_PIECE (store.old.len - 0)) }
    ensures short { IfOk result IsPiece }
    ensures sound { IsSound D.Disk store.new }
    ensures same { ¬ IsErrOf result StoreFault.DiskFault → StaysAsItWas store.old store.new }
    ensures failed { IsErrOf result StoreFault.DiskFault → HasFailed store.old store.new }
    ensures fault { IfErr result (λ fault. (fault ≡ StoreFault.DiskFault) ⊎ (fault ≡ StoreFault.NoMemory)) }
    ensures disk { OnlyReads D.Disk store.old.disk store.new.disk (IsErrOf result StoreFault.DiskFault) }
{
    if servers > 1 {
        read_piece(alloc, store, 0)
    } else {
        Ok(Bytes::new(Vec::new(alloc)))
    }
}
