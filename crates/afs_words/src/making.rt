//! Commands, made of what the values of an operation's switches were read as.
ghost use Rattle.std.specs.Prelude.{IfOk};
ghost use Rattle.afs_words.specs.Good.{AreGood};
ghost use Rattle.afs_words.specs.Making.{IsCommand};
ghost use Rattle.afs_words.specs.Tables.{parameters_of};

use crate::judged::Judged;
use crate::pts_commands::{
    add_user, chown, create_group, create_user, delete, examine, list_entries, list_owned,
    membership, remove_user, rename, set_fields, set_max,
};
use crate::tables::Operation;
use crate::vos_commands::{
    add_entry, add_site, change_addr, change_loc, del_entry, list_vldb, lock, rem_site, unlock,
    unlock_vldb,
};
use afs_commands::ToolCommand::{Pts, Vos};
use afs_commands::{PtsCommand, ToolCommand, VosCommand};
use std::alloc::Global;
use ubik_types::NoMemory;

/// The command of an operation, whose switches are all good.
pub(crate) fn tool_command(
    alloc: Global,
    operation: Operation,
    judged: &Judged,
) -> Result<ToolCommand, NoMemory>
    requires { AreGood (parameters_of operation) judged.now }
    ensures { IfOk result (λ command. IsCommand command operation judged.now) }
{
    Ok(match operation {
        Operation::AddEntry => Vos(add_entry(alloc, judged)?),
        Operation::ListVldb => Vos(list_vldb(alloc, judged)?),
        Operation::Lock => Vos(lock(alloc, judged)?),
        Operation::Unlock => Vos(unlock(alloc, judged)?),
        Operation::UnlockVldb => Vos(unlock_vldb(judged)),
        Operation::DelEntry => Vos(del_entry(alloc, judged)?),
        Operation::AddSite => Vos(add_site(alloc, judged)?),
        Operation::RemSite => Vos(rem_site(alloc, judged)?),
        Operation::ChangeLoc => Vos(change_loc(alloc, judged)?),
        Operation::ListAddrs => Vos(VosCommand::ListAddrs),
        Operation::ChangeAddr => Vos(change_addr(judged)),
        Operation::CreateUser => Pts(create_user(alloc, judged)?),
        Operation::CreateGroup => Pts(create_group(alloc, judged)?),
        Operation::Delete => Pts(delete(alloc, judged)?),
        Operation::Rename => Pts(rename(alloc, judged)?),
        Operation::Chown => Pts(chown(alloc, judged)?),
        Operation::AddUser => Pts(add_user(alloc, judged)?),
        Operation::RemoveUser => Pts(remove_user(alloc, judged)?),
        Operation::Membership => Pts(membership(alloc, judged)?),
        Operation::Examine => Pts(examine(alloc, judged)?),
        Operation::ListOwned => Pts(list_owned(alloc, judged)?),
        Operation::ListEntries => Pts(list_entries(judged)),
        Operation::ListMax => Pts(PtsCommand::ListMax),
        Operation::SetMax => Pts(set_max(judged)),
        Operation::SetFields => Pts(set_fields(alloc, judged)?),
    })
}
