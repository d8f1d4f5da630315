//! What the calls of a row are made on: a disk in memory, pages over its database file, or a store over it.
ghost use Rattle.std.specs.Prelude.{◌≤◌, length};
ghost use Rattle.disk_base.specs.MemDisk.{now_of};
ghost use Rattle.page_file.specs.Pages.{AgreesIn};
ghost use Rattle.page_file.specs.declared.label.TheConstants.{LABEL_LEN};
ghost use Rattle.ubik_store.specs.Store.{IsSound};
ghost use Rattle.store_sessions.specs.Lone.{AgreesIn-prop, IsSound-prop};

use disk_base::{Disk, MemDisk};
use page_file::Pages;
use ubik_store::Store;

/// Pages over a database file that has room for a label.
#[derive(Drop)]
pub struct PagedDisk {
    pub disk: MemDisk,
    pub pages: Pages,
    ghost agrees: { AgreesIn pages (⟦<MemDisk as Disk>⟧.files disk) } by { AgreesIn-prop pages (⟦<MemDisk as Disk>⟧.files disk) },
    ghost headed: { LABEL_LEN ≤ length (now_of disk).database },
}

/// A store that was opened.
#[derive(Drop)]
pub struct HeldStore {
    pub store: Store<MemDisk>,
    ghost sound: { IsSound ⟦<MemDisk as Disk>⟧ store } by { IsSound-prop ⟦<MemDisk as Disk>⟧ store },
}

/// What the next call is made on.
#[derive(Drop)]
pub enum Device {
    Disk(MemDisk),
    Pages(PagedDisk),
    Store(HeldStore),
}

impl Device {
    /// The disk, as it is.
    pub fn into_disk(self) -> MemDisk {
        match self {
            Device::Disk(disk) => disk,
            Device::Pages(PagedDisk { disk, .. }) => disk,
            Device::Store(HeldStore { store }) => store.close(),
        }
    }
}
