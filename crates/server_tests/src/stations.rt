//! Stations under test.
ghost use Rattle.std.specs.Prelude.{◌≡◌, [], IfOk};
ghost use Rattle.disk_base.specs.Crash.{IsSettled};
ghost use Rattle.ubik_types.specs.Moment.{IsMoment};

use db_image::DraftService;
use disk_base::{Disk, MemDisk, StopDisk};
use pt_database::PtService;
use server_station::{Keeper, Opening, Station};
use std::alloc::Global;
use std::process::Abort;
use std::sync::ledger::Blank;
use std::test::Fail;
use ubik_node::Node;
use ubik_types::{Bytes, Cell, Host};

/// The moment at which each station is opened, in seconds.
pub const OPENED: u32 = 1000;

/// The only server of its cell, over an empty disk.
pub type Single<L, J> = Station<MemDisk, PtService, L, J>;

/// The disk, on which nothing is pending: it was opened anew.
pub fn revived<D: StopDisk>(disk: D) -> D
    ensures settled { IsSettled (D.files result) (D.may_leave result) }
{
    let mut disk = disk;
    disk.revive();
    disk
}

/// A station of a server that was just opened, the only one of its cell, with a journal that is empty.
pub fn opened<L: Opening, J: Keeper>(
    rt: &impl Abort,
    alloc: Global,
    blank: Blank,
    journal: J,
) -> Result<Single<L, J>, Fail>
    requires name { blank.name ≡ L.name }
    requires parts { (blank.parts ≡ L.parts) × (L.all ≡ L.parts) × (L.all ≡ 7) }
    requires empty { J.items journal ≡ [] }
    ensures { IfOk result (λ station. station.recorded.shares.lent ≡ 0) }
{
    let disk = revived(MemDisk::new(alloc, &[])?);
    opened_over(rt, alloc, (&[Host(1)], 0), OPENED, disk, blank, journal)
}

/// A station over a disk on which nothing is pending: of a server of these hosts, ascending, and its place among them.
#[tactic(auto, using(server_station::proofs::Replaying::just_opened))]
pub fn opened_over<D: Disk + Drop, V: DraftService, L: Opening, J: Keeper>(
    rt: &impl Abort,
    alloc: Global,
    place: (&[Host], usize),
    now: u32,
    disk: D,
    blank: Blank,
    journal: J,
) -> Result<Station<D, V, L, J>, Fail>
    requires moment { IsMoment now }
    requires settled { IsSettled (D.files disk) (D.may_leave disk) }
    requires name { blank.name ≡ L.name }
    requires parts { (blank.parts ≡ L.parts) × (L.all ≡ L.parts) × (L.all ≡ 7) }
    requires empty { J.items journal ≡ [] }
    ensures { IfOk result (λ station. station.recorded.shares.lent ≡ 0) }
{
    let (hosts, me) = place;
    let cell = Cell::new(alloc, hosts)?;
    assert!(rt; me < cell.len());
    let node = match Node::open(alloc, cell, me, disk, now) {
        Ok(node) => node,
        Err(refused) => return Err(refused.why)?,
    };
    match Station::make(alloc, node, journal, blank) {
        Ok(station) => Ok(station),
        Err(refused) => Err(refused.why)?,
    }
}

/// The bytes of words, each with its high byte first.
pub fn bytes_in(alloc: Global, words: &[u32]) -> Result<Bytes, Fail> {
    let mut bytes = Vec::new(alloc);
    for word in words {
        bytes.extend_from_slice(&word.to_be_bytes())?;
    }
    Ok(Bytes::new(bytes))
}
