//! The items of a command.
ghost use Rattle.std.specs.Prelude.{◌≡◌, [], ◌∷◌, ◌++◌, map, drop, true, false, IfOk, OnOk, Some, None, option_map};
ghost use Rattle.afs_commands.specs.Accesses.{access_word};
ghost use Rattle.pts_tool.specs.Flags.{flags_of};
ghost use Rattle.pts_tool.specs.Plans.{command_tasks, deed_task, made, pairs, maximum, mask_of, fields, kinds_of};
ghost use Rattle.pts_tool.specs.declared.tasks.Task.TheVariants as task;

use crate::flags::flags_of;
use crate::tasks::Task;
use afs_commands::{Access, Entry, PtsCommand};
use std::alloc::Global;
use ubik_types::{Bytes, NoMemory, bytes_of};

/// What is done with each entry that a command names.
#[derive(Clone, Copy)]
pub(crate) enum Deed {
    Delete,
    Membership,
    Examine,
    ListOwned,
}

/// The items of a command, in the order in which they are worked through.
pub(crate) fn tasks_of(alloc: Global, command: &PtsCommand) -> Result<Vec<Task>, NoMemory>
    ensures { IfOk result (λ tasks. tasks.items ≡ command_tasks command.now) }
{
    match command {
        PtsCommand::CreateUser { names, ids } => made(
            alloc,
            false,
            &None,
            names.as_slice(),
            ids.as_slice(),
        ),
        PtsCommand::CreateGroup { names, owner, ids } => made(
            alloc,
            true,
            owner,
            names.as_slice(),
            ids.as_slice(),
        ),
        PtsCommand::Delete { entries } => each(alloc, Deed::Delete, entries.as_slice()),
        PtsCommand::Rename { entry, name } => renamed(alloc, entry, name),
        PtsCommand::Chown { entry, owner } => handed(alloc, entry, owner),
        PtsCommand::AddUser { users, groups } => pairs(
            alloc,
            true,
            users.as_slice(),
            groups.as_slice(),
        ),
        PtsCommand::RemoveUser { users, groups } => pairs(
            alloc,
            false,
            users.as_slice(),
            groups.as_slice(),
        ),
        PtsCommand::Membership { entries } => each(alloc, Deed::Membership, entries.as_slice()),
        PtsCommand::Examine { entries } => each(alloc, Deed::Examine, entries.as_slice()),
        PtsCommand::ListOwned { entries } => each(alloc, Deed::ListOwned, entries.as_slice()),
        PtsCommand::ListEntries { users, groups } => {
            let kinds = kinds_of(*users, *groups);
            only(alloc, Task::ListEntries { kinds })
        }
        PtsCommand::ListMax => only(alloc, Task::ListMax),
        PtsCommand::SetMax { group, user } => maxima(alloc, *group, *user),
        PtsCommand::SetFields {
            entries,
            access,
            quota,
        } => fields(alloc, flags_in(*access), *quota, entries.as_slice()),
    }
}

/// One item alone.
fn only(alloc: Global, task: Task) -> Result<Vec<Task>, NoMemory>
    ensures { IfOk result (λ tasks. tasks.items ≡ task ∷ []) }
{
    let mut tasks = Vec::new(alloc);
    tasks.push(task)?;
    Ok(tasks)
}

/// An entry for each name; each of the ids goes with the name at its place.
fn made(
    alloc: Global,
    is_group: bool,
    owner: &Option<Entry>,
    names: &[Bytes],
    ids: &[i32],
) -> Result<Vec<Task>, NoMemory>
    ensures { IfOk result (λ tasks. tasks.items ≡ made is_group owner.now names.now (map Some ids.now)) }
{
    let mut tasks = Vec::new(alloc);
    let mut left = ids;
    for word in names {
        let name = bytes_of(alloc, word.as_slice())?;
        let by = copied(alloc, owner)?;
        tasks.push(Task::Create {
            name,
            is_group,
            owner: by,
            id: left.first().copied(),
        })?;
        left = behind(left);
    }
    Ok(tasks)
}

/// What stands behind the first id.
fn behind(ids: &[i32]) -> &[i32]
    ensures { result.now ≡ drop 1 ids.now }
{
    match ids {
        [] => &[],
        [_, rest @ ..] => rest,
    }
}

/// A copy of an owner, where there is one.
fn copied(alloc: Global, owner: &Option<Entry>) -> Result<Option<Entry>, NoMemory>
    ensures { IfOk result (λ copy. copy ≡ owner.now) }
{
    match owner {
        None => Ok(None),
        Some(entry) => Ok(Some(entry.copied(alloc)?)),
    }
}

/// An item for each entry.
fn each(alloc: Global, deed: Deed, entries: &[Entry]) -> Result<Vec<Task>, NoMemory>
    ensures { IfOk result (λ tasks. tasks.items ≡ map (deed_task deed) entries.now) }
{
    let mut tasks = Vec::new(alloc);
    for named in entries {
        let entry = named.copied(alloc)?;
        tasks.push(deed.task(entry))?;
    }
    Ok(tasks)
}

impl Deed {
    /// The item that does this with an entry.
    fn task(self, entry: Entry) -> Task
        ensures { result ≡ deed_task self entry }
    {
        match self {
            Deed::Delete => Task::Delete { entry },
            Deed::Membership => Task::Membership { entry },
            Deed::Examine => Task::Examine { entry },
            Deed::ListOwned => Task::ListOwned { entry },
        }
    }
}

/// An entry gets another name.
fn renamed(alloc: Global, entry: &Entry, name: &Bytes) -> Result<Vec<Task>, NoMemory>
    ensures { IfOk result (λ tasks. tasks.items ≡ task.Change entry.now name.now None ∷ []) }
{
    let entry = entry.copied(alloc)?;
    let name = bytes_of(alloc, name.as_slice())?;
    let owner = None;
    only(alloc, Task::Change { entry, name, owner })
}

/// An entry gets another owner.
fn handed(alloc: Global, entry: &Entry, owner: &Entry) -> Result<Vec<Task>, NoMemory>
    ensures { IfOk result (λ tasks. tasks.items ≡ task.Change entry.now [] (Some owner.now) ∷ []) }
{
    let entry = entry.copied(alloc)?;
    let name = Bytes::new(Vec::new(alloc));
    let owner = Some(owner.copied(alloc)?);
    only(alloc, Task::Change { entry, name, owner })
}

/// Each user with each group.
fn pairs(
    alloc: Global,
    adds: bool,
    users: &[Entry],
    groups: &[Entry],
) -> Result<Vec<Task>, NoMemory>
    ensures { IfOk result (λ tasks. tasks.items ≡ pairs adds users.now groups.now) }
{
    let mut tasks = Vec::new(alloc);
    for user in users {
        put_pairs(alloc, adds, user, groups, &mut tasks)?;
    }
    Ok(tasks)
}

/// A user with each group.
fn put_pairs(
    alloc: Global,
    adds: bool,
    user: &Entry,
    groups: &[Entry],
    tasks: &mut Vec<Task>,
) -> Result<(), NoMemory>
    ensures { OnOk result (tasks.new.items ≡ tasks.old.items ++ map (λ group. task.Member user.now group adds) groups.now) }
{
    for named in groups {
        let member = user.copied(alloc)?;
        let group = named.copied(alloc)?;
        tasks.push(Task::Member {
            user: member,
            group,
            adds,
        })?;
    }
    Ok(())
}

/// The maxima that are set: that of groups first.
fn maxima(alloc: Global, group: Option<i32>, user: Option<i32>) -> Result<Vec<Task>, NoMemory>
    ensures { IfOk result (λ tasks. tasks.items ≡ maximum true group ++ maximum false user) }
{
    let mut tasks = Vec::new(alloc);
    if let Some(id) = group {
        let is_group = true;
        tasks.push(Task::SetMax { id, is_group })?;
    }
    if let Some(id) = user {
        let is_group = false;
        tasks.push(Task::SetMax { id, is_group })?;
    }
    Ok(tasks)
}

/// The fields that are set, for each entry.
fn fields(
    alloc: Global,
    flags: Option<u32>,
    quota: Option<i32>,
    entries: &[Entry],
) -> Result<Vec<Task>, NoMemory>
    ensures { IfOk result (λ tasks. tasks.items ≡ map (fields flags quota) entries.now) }
{
    let mask = mask_of(flags, quota);
    let bits = flags.unwrap_or(0);
    let limit = quota.unwrap_or(0);
    let mut tasks = Vec::new(alloc);
    for named in entries {
        let entry = named.copied(alloc)?;
        tasks.push(Task::SetFields {
            entry,
            mask,
            flags: bits,
            quota: limit,
        })?;
    }
    Ok(tasks)
}

/// Which fields are set.
fn mask_of(flags: Option<u32>, quota: Option<i32>) -> u32
    ensures { result ≡ mask_of flags quota }
{
    match (flags, quota) {
        (None, None) => 0,
        (Some(_), None) => 1,
        (None, Some(_)) => 2,
        (Some(_), Some(_)) => 3,
    }
}

/// The flags that access writes.
fn flags_in(access: Option<Access>) -> Option<u32>
    ensures { result ≡ option_map flags_of (option_map access_word access) }
{
    match access {
        None => None,
        Some(access) => Some(flags_of(access)),
    }
}

/// Which entries are listed, by whether users and groups were asked for.
fn kinds_of(users: bool, groups: bool) -> u32
    ensures { result ≡ kinds_of users groups }
{
    match (users, groups) {
        (_, false) => 1,
        (false, true) => 2,
        (true, true) => 3,
    }
}
