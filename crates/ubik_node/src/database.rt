//! Commits of a server: its changes become one durable call of its store.
ghost use Rattle.std.specs.Prelude.{◌≡◌, ◌≢◌, ◌⊎◌, true, false, None, IfErr, IsErrOf, OnOk};
ghost use Rattle.ubik_types.specs.Logged.{logged, too_large};
ghost use Rattle.ubik_types.specs.Version.{IsVersion, version_lt};
ghost use Rattle.ubik_store.specs.DurableCall.{Commits, HasFailed, IsDurable, Refuses};
ghost use Rattle.ubik_store.specs.Store.{IsSound};

use disk_base::Disk;
use ubik_store::{Store, StoreFault};
use ubik_types::{Changes, Version};

/// Makes these changes, as a store keeps them, one durable call of a store in which nothing is begun, under a newer version. Where they are
/// not made, nothing is begun either.
pub fn commit_all<D: Disk>(
    store: &mut Store<D>,
    changes: &Changes,
    v: Version,
) -> Result<(), StoreFault>
    requires sound { IsSound D.Disk store.old }
    requires fresh { store.old.failed ≡ false }
    requires none { store.old.begun ≡ None }
    requires version { IsVersion v }
    requires newer { version_lt store.old.version v ≡ true }
    ensures sound { IsSound D.Disk store.new }
    ensures none { store.new.begun ≡ None }
    ensures done { OnOk result (Commits D.Disk (logged store.old.len changes.now) v store.old store.new) }
    ensures failed { IsErrOf result StoreFault.DiskFault → HasFailed store.old store.new }
    ensures refused { IfErr result (λ fault. fault ≢ StoreFault.DiskFault → Refuses D.Disk store.old store.new) }
    ensures memory { too_large 0 store.old.len changes.now ≡ None → IfErr result (λ fault. (fault ≡ StoreFault.DiskFault) ⊎ (fault ≡ StoreFault.NoMemory)) }
    ensures durable { IsDurable D.Disk (logged store.old.len changes.now) v store.old store.new (IsErrOf result StoreFault.DiskFault) }
{
    store.commit_all(changes, v)
}
