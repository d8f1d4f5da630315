//! Commands of `vos`, made of what the values of an operation's switches were read as.
ghost use Rattle.std.specs.Prelude.{◌≡◌, ◌∷◌, [], IfOk, IsSome, Some};
ghost use Rattle.afs_commands.specs.declared.forms.Form.TheVariants as form;
ghost use Rattle.afs_words.specs.Given.{address_at, partition_at, value_at};
ghost use Rattle.afs_words.specs.Good.{AreGood};
ghost use Rattle.afs_words.specs.Making.{IsFilter, IsPlace, IsVos};
ghost use Rattle.afs_words.specs.Tables.{parameters_of, site_rows, volume_row};
ghost use Rattle.afs_words.specs.Taken.{takes_at};
ghost use Rattle.afs_words.specs.declared.tables.Operation.TheVariants as op;
ghost use Rattle.afs_words.specs.declared.tables.Takes.TheVariants.{One};

use crate::judged::Judged;
use afs_commands::{Place, SiteFilter, Style, Volume, VosCommand};
use std::alloc::Global;
use ubik_types::{NoMemory, bytes_of};

/// `addentry`.
pub(crate) fn add_entry(alloc: Global, judged: &Judged) -> Result<VosCommand, NoMemory>
    requires { AreGood (parameters_of op.AddEntry) judged.now }
    ensures { IfOk result (λ command. IsVos command op.AddEntry judged.now) }
{
    let name = bytes_of(alloc, judged.word(0))?;
    let place = place_at(judged, 1, 2);
    let id = judged.new_id(3);
    Ok(VosCommand::AddEntry { name, place, id })
}

/// `listvldb`.
pub(crate) fn list_vldb(alloc: Global, judged: &Judged) -> Result<VosCommand, NoMemory>
    requires { AreGood (parameters_of op.ListVldb) judged.now }
    ensures { IfOk result (λ command. IsVos command op.ListVldb judged.now) }
{
    let volume = judged.volume(alloc, 0)?;
    let sites = filter_at(judged, 1, 2);
    let locked = judged.flag(3);
    let style = Style {
        quiet: judged.flag(4),
        unsorted: judged.flag(5),
    };
    Ok(VosCommand::ListVldb {
        volume,
        sites,
        locked,
        style,
    })
}

/// `lock`.
pub(crate) fn lock(alloc: Global, judged: &Judged) -> Result<VosCommand, NoMemory>
    requires { AreGood (volume_row ∷ []) judged.now }
    ensures { IfOk result (λ command. IsVos command op.Lock judged.now) }
{
    let volume = given_volume(alloc, judged, 0)?;
    Ok(VosCommand::Lock { volume })
}

/// `unlock`.
pub(crate) fn unlock(alloc: Global, judged: &Judged) -> Result<VosCommand, NoMemory>
    requires { AreGood (volume_row ∷ []) judged.now }
    ensures { IfOk result (λ command. IsVos command op.Unlock judged.now) }
{
    let volume = given_volume(alloc, judged, 0)?;
    Ok(VosCommand::Unlock { volume })
}

/// `unlockvldb`.
pub(crate) fn unlock_vldb(judged: &Judged) -> VosCommand
    requires { AreGood (parameters_of op.UnlockVldb) judged.now }
    ensures { IsVos result op.UnlockVldb judged.now }
{
    let sites = filter_at(judged, 0, 1);
    VosCommand::UnlockVldb { sites }
}

/// `delentry`.
pub(crate) fn del_entry(alloc: Global, judged: &Judged) -> Result<VosCommand, NoMemory>
    requires { AreGood (parameters_of op.DelEntry) judged.now }
    ensures { IfOk result (λ command. IsVos command op.DelEntry judged.now) }
{
    let volumes = judged.volumes(alloc, 0)?;
    Ok(VosCommand::DelEntry { volumes })
}

/// `addsite`.
pub(crate) fn add_site(alloc: Global, judged: &Judged) -> Result<VosCommand, NoMemory>
    requires { AreGood site_rows judged.now }
    ensures { IfOk result (λ command. IsVos command op.AddSite judged.now) }
{
    let (place, volume) = site(alloc, judged)?;
    Ok(VosCommand::AddSite { place, volume })
}

/// `remsite`.
pub(crate) fn rem_site(alloc: Global, judged: &Judged) -> Result<VosCommand, NoMemory>
    requires { AreGood site_rows judged.now }
    ensures { IfOk result (λ command. IsVos command op.RemSite judged.now) }
{
    let (place, volume) = site(alloc, judged)?;
    Ok(VosCommand::RemSite { place, volume })
}

/// `changeloc`.
pub(crate) fn change_loc(alloc: Global, judged: &Judged) -> Result<VosCommand, NoMemory>
    requires { AreGood site_rows judged.now }
    ensures { IfOk result (λ command. IsVos command op.ChangeLoc judged.now) }
{
    let (place, volume) = site(alloc, judged)?;
    Ok(VosCommand::ChangeLoc { place, volume })
}

/// `changeaddr`.
pub(crate) fn change_addr(judged: &Judged) -> VosCommand
    requires { AreGood (parameters_of op.ChangeAddr) judged.now }
    ensures { IsVos result op.ChangeAddr judged.now }
{
    let from = judged.address(0).unwrap();
    let to = judged.address(1);
    VosCommand::ChangeAddr { from, to }
}

/// The place and the volume of the operations that change a site.
fn site(alloc: Global, judged: &Judged) -> Result<(Place, Volume), NoMemory>
    requires { AreGood site_rows judged.now }
    ensures place { IfOk result (λ made. IsPlace made.0 judged.now 0 1) }
    ensures volume { IfOk result (λ made. value_at judged.now 2 ≡ Some made.1) }
{
    let volume = given_volume(alloc, judged, 2)?;
    Ok((place_at(judged, 0, 1), volume))
}

/// The volume of a switch that was given.
fn given_volume(alloc: Global, judged: &Judged, place: usize) -> Result<Volume, NoMemory>
    requires form { takes_at judged.now place ≡ Some (One form.Volume) }
    requires given { IsSome (value_at judged.now place) }
    ensures { IfOk result (λ volume. value_at judged.now place ≡ Some volume) }
{
    Ok(judged.volume(alloc, place)?.unwrap())
}

/// A server and its partition, of switches that were given.
fn place_at(judged: &Judged, server: usize, partition: usize) -> Place
    requires address { takes_at judged.now server ≡ Some (One form.Address) }
    requires server { IsSome (address_at judged.now server) }
    requires number { takes_at judged.now partition ≡ Some (One form.Partition) }
    requires partition { IsSome (partition_at judged.now partition) }
    ensures { IsPlace result judged.now server partition }
{
    Place {
        host: judged.address(server).unwrap(),
        partition: judged.partition(partition).unwrap(),
    }
}

/// The server and the partition of switches that may be given.
fn filter_at(judged: &Judged, server: usize, partition: usize) -> SiteFilter
    requires server { takes_at judged.now server ≡ Some (One form.Address) }
    requires partition { takes_at judged.now partition ≡ Some (One form.Partition) }
    ensures { IsFilter result judged.now server partition }
{
    SiteFilter {
        server: judged.address(server),
        partition: judged.partition(partition),
    }
}
