//! Commands of `pts`, made of what the values of an operation's switches were read as.
ghost use Rattle.std.specs.Prelude.{◌≡◌, IfOk, IsSome, Some};
ghost use Rattle.afs_commands.specs.declared.forms.Form.TheVariants as form;
ghost use Rattle.afs_words.specs.Given.{value_at, values_at};
ghost use Rattle.afs_words.specs.Good.{AreGood};
ghost use Rattle.afs_words.specs.Making.{IsPts};
ghost use Rattle.afs_words.specs.Tables.{entry_rows, member_rows, parameters_of};
ghost use Rattle.afs_words.specs.Taken.{takes_at};
ghost use Rattle.afs_words.specs.declared.tables.Operation.TheVariants as op;
ghost use Rattle.afs_words.specs.declared.tables.Takes.TheVariants.{One};

use crate::judged::Judged;
use afs_commands::{Entry, PtsCommand};
use std::alloc::Global;
use ubik_types::{NoMemory, bytes_of};

/// `createuser`.
pub(crate) fn create_user(alloc: Global, judged: &Judged) -> Result<PtsCommand, NoMemory>
    requires { AreGood (parameters_of op.CreateUser) judged.now }
    ensures { IfOk result (λ command. IsPts command op.CreateUser judged.now) }
{
    let names = judged.names(alloc, 0)?;
    let ids = judged.user_ids(alloc, 1)?;
    Ok(PtsCommand::CreateUser { names, ids })
}

/// `creategroup`.
pub(crate) fn create_group(alloc: Global, judged: &Judged) -> Result<PtsCommand, NoMemory>
    requires { AreGood (parameters_of op.CreateGroup) judged.now }
    ensures { IfOk result (λ command. IsPts command op.CreateGroup judged.now) }
{
    let names = judged.names(alloc, 0)?;
    let owner = judged.entry(alloc, 1)?;
    let ids = judged.group_ids(alloc, 2)?;
    Ok(PtsCommand::CreateGroup { names, owner, ids })
}

/// `rename`.
pub(crate) fn rename(alloc: Global, judged: &Judged) -> Result<PtsCommand, NoMemory>
    requires { AreGood (parameters_of op.Rename) judged.now }
    ensures { IfOk result (λ command. IsPts command op.Rename judged.now) }
{
    let entry = given_entry(alloc, judged, 0)?;
    let name = bytes_of(alloc, judged.word(1))?;
    Ok(PtsCommand::Rename { entry, name })
}

/// `chown`.
pub(crate) fn chown(alloc: Global, judged: &Judged) -> Result<PtsCommand, NoMemory>
    requires { AreGood (parameters_of op.Chown) judged.now }
    ensures { IfOk result (λ command. IsPts command op.Chown judged.now) }
{
    let entry = given_entry(alloc, judged, 0)?;
    let owner = given_entry(alloc, judged, 1)?;
    Ok(PtsCommand::Chown { entry, owner })
}

/// `adduser`.
pub(crate) fn add_user(alloc: Global, judged: &Judged) -> Result<PtsCommand, NoMemory>
    requires { AreGood member_rows judged.now }
    ensures { IfOk result (λ command. IsPts command op.AddUser judged.now) }
{
    let users = judged.entries(alloc, 0)?;
    let groups = judged.entries(alloc, 1)?;
    Ok(PtsCommand::AddUser { users, groups })
}

/// `removeuser`.
pub(crate) fn remove_user(alloc: Global, judged: &Judged) -> Result<PtsCommand, NoMemory>
    requires { AreGood member_rows judged.now }
    ensures { IfOk result (λ command. IsPts command op.RemoveUser judged.now) }
{
    let users = judged.entries(alloc, 0)?;
    let groups = judged.entries(alloc, 1)?;
    Ok(PtsCommand::RemoveUser { users, groups })
}

/// `delete`.
pub(crate) fn delete(alloc: Global, judged: &Judged) -> Result<PtsCommand, NoMemory>
    requires { AreGood entry_rows judged.now }
    ensures { IfOk result (λ command. IsPts command op.Delete judged.now) }
{
    let entries = the_entries(alloc, judged)?;
    Ok(PtsCommand::Delete { entries })
}

/// `membership`.
pub(crate) fn membership(alloc: Global, judged: &Judged) -> Result<PtsCommand, NoMemory>
    requires { AreGood entry_rows judged.now }
    ensures { IfOk result (λ command. IsPts command op.Membership judged.now) }
{
    let entries = the_entries(alloc, judged)?;
    Ok(PtsCommand::Membership { entries })
}

/// `examine`.
pub(crate) fn examine(alloc: Global, judged: &Judged) -> Result<PtsCommand, NoMemory>
    requires { AreGood entry_rows judged.now }
    ensures { IfOk result (λ command. IsPts command op.Examine judged.now) }
{
    let entries = the_entries(alloc, judged)?;
    Ok(PtsCommand::Examine { entries })
}

/// `listowned`.
pub(crate) fn list_owned(alloc: Global, judged: &Judged) -> Result<PtsCommand, NoMemory>
    requires { AreGood entry_rows judged.now }
    ensures { IfOk result (λ command. IsPts command op.ListOwned judged.now) }
{
    let entries = the_entries(alloc, judged)?;
    Ok(PtsCommand::ListOwned { entries })
}

/// The users and groups of the operations that take nothing else.
fn the_entries(alloc: Global, judged: &Judged) -> Result<Vec<Entry>, NoMemory>
    requires { AreGood entry_rows judged.now }
    ensures { IfOk result (λ list. list.items ≡ values_at judged.now 0) }
{
    judged.entries(alloc, 0)
}

/// `listentries`.
pub(crate) fn list_entries(judged: &Judged) -> PtsCommand
    requires { AreGood (parameters_of op.ListEntries) judged.now }
    ensures { IsPts result op.ListEntries judged.now }
{
    PtsCommand::ListEntries {
        users: judged.flag(0),
        groups: judged.flag(1),
    }
}

/// `setmax`.
pub(crate) fn set_max(judged: &Judged) -> PtsCommand
    requires { AreGood (parameters_of op.SetMax) judged.now }
    ensures { IsPts result op.SetMax judged.now }
{
    PtsCommand::SetMax {
        group: judged.signed(0),
        user: judged.signed(1),
    }
}

/// `setfields`.
pub(crate) fn set_fields(alloc: Global, judged: &Judged) -> Result<PtsCommand, NoMemory>
    requires { AreGood (parameters_of op.SetFields) judged.now }
    ensures { IfOk result (λ command. IsPts command op.SetFields judged.now) }
{
    let entries = judged.entries(alloc, 0)?;
    Ok(PtsCommand::SetFields {
        entries,
        access: judged.access(1),
        quota: judged.signed(2),
    })
}

/// The user or group of a switch that was given.
fn given_entry(alloc: Global, judged: &Judged, place: usize) -> Result<Entry, NoMemory>
    requires form { takes_at judged.now place ≡ Some (One form.Entry) }
    requires given { IsSome (value_at judged.now place) }
    ensures { IfOk result (λ entry. value_at judged.now place ≡ Some entry) }
{
    Ok(judged.entry(alloc, place)?.unwrap())
}
