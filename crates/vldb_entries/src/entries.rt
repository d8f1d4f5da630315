//! What the location database knows of a volume.
ghost use Rattle.std.specs.Prelude.{◌≡◌, IfOk};

use call_grammar::Items;
use std::alloc::Global;
use ubik_types::{Bytes, NoMemory};

/// Where a volume lies: a server's address, a partition of it, and what of the volume lies there.
#[derive(Clone, Copy, Debug, PartialEq, Eq)]
pub struct VlSite {
    pub host: u32,
    pub partition: u32,
    /// 1 new replica, 2 read-only, 4 read-write, 8 backup.
    pub flags: u32,
}

/// The sites of an entry, in their order.
pub type SiteList = Items<VlSite>;

/// A copy of the sites.
pub fn sites_of(alloc: Global, from: &[VlSite]) -> Result<SiteList, NoMemory>
    ensures { IfOk result (λ sites. sites ≡ from.now) }
{
    let sites = from.to_vec(alloc)?;
    Ok(Items::new(sites))
}

/// A volume of a cell: its name, its ids (0 for none), where it lies, and its lock.
#[derive(Drop)]
pub struct VlEntry {
    pub name: Bytes,
    /// 0x1000 read-write exists, 0x2000 read-only exists, 0x4000 backup exists.
    pub flags: u32,
    pub rw: u32,
    pub ro: u32,
    pub backup: u32,
    pub clone_id: u32,
    pub sites: SiteList,
    /// What holds the lock; 0 where it is free.
    pub lock_op: u32,
    /// The second at which it was set.
    pub lock_moment: u32,
}
