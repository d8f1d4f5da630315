//! Entries that are made, removed and changed, and users that are put into groups.
ghost use Rattle.std.specs.Prelude.{◌≡◌};
ghost use Rattle.pts_tool.specs.Courses.{kind_of, next_id, given_id, new_id, member_call, creates, deletes, changes, moves};
ghost use Rattle.tool_base.specs.Running.{Ran};

use crate::asking::ask;
use crate::names::{entry_id, owner_id};
use crate::setting::do_call;
use crate::texts::made_text;
use afs_commands::Entry;
use io_base::Link;
use pt_calls::PtCall;
use tool_base::{Client, Stop};
use ubik_types::{Bytes, bytes_of};

/// Makes a user, or a group, and tells its id.
pub(crate) fn create<L: Link>(
    client: &mut Client<'_>,
    link: &mut L,
    name: &Bytes,
    is_group: bool,
    owner: &Option<Entry>,
    id: Option<i32>,
) -> Result<Bytes, Stop>
    ensures { Ran (creates name.now is_group owner.now id) client.old client.new (L.exchanges link.old) (L.exchanges link.new) result }
{
    let owner = owner_id(client, link, owner)?;
    let id = new_id(client, link, name, is_group, owner, id)?;
    let text = made_text(client.alloc(), is_group, name.as_slice(), id)?;
    Ok(text)
}

/// Makes an entry with the next id, or with this one, and gives the id.
fn new_id<L: Link>(
    client: &mut Client<'_>,
    link: &mut L,
    name: &Bytes,
    is_group: bool,
    owner: i32,
    id: Option<i32>,
) -> Result<i32, Stop>
    ensures { Ran (new_id name.now is_group owner id) client.old client.new (L.exchanges link.old) (L.exchanges link.new) result }
{
    match id {
        Some(id) => given_id(client, link, name, owner, id),
        None => next_id(client, link, name, is_group, owner),
    }
}

/// Makes an entry with the next id, and gives the id.
fn next_id<L: Link>(
    client: &mut Client<'_>,
    link: &mut L,
    name: &Bytes,
    is_group: bool,
    owner: i32,
) -> Result<i32, Stop>
    ensures { Ran (next_id name.now is_group owner) client.old client.new (L.exchanges link.old) (L.exchanges link.new) result }
{
    let name = bytes_of(client.alloc(), name.as_slice())?;
    let kind = kind_of(is_group);
    ask(client, link, &PtCall::NewEntry { name, kind, owner })
}

/// The kind of an entry in a call.
fn kind_of(is_group: bool) -> u32
    ensures { result ≡ kind_of is_group }
{
    if is_group { 2 } else { 0 }
}

/// Makes an entry with this id.
fn given_id<L: Link>(
    client: &mut Client<'_>,
    link: &mut L,
    name: &Bytes,
    owner: i32,
    id: i32,
) -> Result<i32, Stop>
    ensures { Ran (given_id name.now owner id) client.old client.new (L.exchanges link.old) (L.exchanges link.new) result }
{
    let name = bytes_of(client.alloc(), name.as_slice())?;
    let () = ask(client, link, &PtCall::INewEntry { name, id, owner })?;
    Ok(id)
}

/// Removes an entry.
pub(crate) fn delete<L: Link>(
    client: &mut Client<'_>,
    link: &mut L,
    entry: &Entry,
) -> Result<Bytes, Stop>
    ensures { Ran (deletes entry.now) client.old client.new (L.exchanges link.old) (L.exchanges link.new) result }
{
    let id = entry_id(client, link, entry)?;
    do_call(client, link, &PtCall::Delete { id })
}

/// Gives an entry another name, where it is not empty, and another owner, where one is given.
pub(crate) fn change<L: Link>(
    client: &mut Client<'_>,
    link: &mut L,
    entry: &Entry,
    name: &Bytes,
    owner: &Option<Entry>,
) -> Result<Bytes, Stop>
    ensures { Ran (changes entry.now name.now owner.now) client.old client.new (L.exchanges link.old) (L.exchanges link.new) result }
{
    let name = bytes_of(client.alloc(), name.as_slice())?;
    let id = entry_id(client, link, entry)?;
    let owner = owner_id(client, link, owner)?;
    let call = PtCall::ChangeEntry {
        id,
        name,
        owner,
        new_id: 0,
    };
    do_call(client, link, &call)
}

/// Puts a user into a group, or takes him out of it.
pub(crate) fn move_member<L: Link>(
    client: &mut Client<'_>,
    link: &mut L,
    user: &Entry,
    group: &Entry,
    adds: bool,
) -> Result<Bytes, Stop>
    ensures { Ran (moves user.now group.now adds) client.old client.new (L.exchanges link.old) (L.exchanges link.new) result }
{
    let member = entry_id(client, link, user)?;
    let group = entry_id(client, link, group)?;
    let call = member_call(adds, member, group);
    do_call(client, link, &call)
}

fn member_call(adds: bool, member: i32, group: i32) -> PtCall
    ensures { result ≡ member_call adds member group }
{
    if adds {
        PtCall::AddToGroup { member, group }
    } else {
        PtCall::RemoveFromGroup { member, group }
    }
}
