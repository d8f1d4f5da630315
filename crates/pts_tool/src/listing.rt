//! What is told of entries.
ghost use Rattle.std.specs.Prelude.{◌≡◌, [], ◌∷◌, pos};
ghost use Rattle.std.specs.Ordering.{int_eq};
ghost use Rattle.pts_tool.specs.Courses.{lists_names, lists_members, found_line, owner_line, lists_owned, examines, lists_pages, lists_entries, lists_maxima};
ghost use Rattle.pts_tool.specs.Pages.{last_id};
ghost use Rattle.tool_base.specs.Running.{Ran};

use crate::answers::Maxima;
use crate::asking::ask;
use crate::names::{entry_id, names_of};
use crate::texts::{
    entry_text, head_row, maxima_text, members_line, names_behind, owned_line, rows_behind,
};
use afs_commands::Entry;
use io_base::Link;
use pt_calls::{Entries, Ids, MAX_PAGE, PtCall, PtEntry};
use tool_base::{Client, Stop};
use ubik_types::Bytes;

/// The most pages of which all but the last are full: the ids of entries ascend, and there are fewer than 2^32.
pub(crate) const MOST_PAGES: u32 = 42_949_673;

/// The members of a group, or the groups of a user.
pub(crate) fn list_members<L: Link>(
    client: &mut Client<'_>,
    link: &mut L,
    entry: &Entry,
) -> Result<Bytes, Stop>
    ensures { Ran (lists_members entry.now) client.old client.new (L.exchanges link.old) (L.exchanges link.new) result }
{
    let id = entry_id(client, link, entry)?;
    let found: PtEntry = ask(client, link, &PtCall::ListEntry { id })?;
    let head = members_line(client.alloc(), found.name.as_slice(), found.id)?;
    list_names(client, link, head, &PtCall::ListElements { id })
}

/// The groups that an entry owns; under the id 0, those that nobody owns.
pub(crate) fn list_owned<L: Link>(
    client: &mut Client<'_>,
    link: &mut L,
    entry: &Entry,
) -> Result<Bytes, Stop>
    ensures { Ran (lists_owned entry.now) client.old client.new (L.exchanges link.old) (L.exchanges link.new) result }
{
    let id = entry_id(client, link, entry)?;
    let head = owner_line(client, link, id)?;
    list_names(client, link, head, &PtCall::ListOwned { id })
}

/// The line before the groups that an entry owns.
fn owner_line<L: Link>(client: &mut Client<'_>, link: &mut L, id: i32) -> Result<Bytes, Stop>
    ensures { Ran (owner_line id) client.old client.new (L.exchanges link.old) (L.exchanges link.new) result }
{
    if is_nobody(id) {
        let line = owned_line(client.alloc(), b"0", 0)?;
        Ok(line)
    } else {
        found_line(client, link, id)
    }
}

/// Whether an id is the one that no entry has.
fn is_nobody(id: i32) -> bool
    ensures { result ≡ int_eq id (pos 0) }
{
    id == 0
}

/// The line before the groups that an entry owns.
fn found_line<L: Link>(client: &mut Client<'_>, link: &mut L, id: i32) -> Result<Bytes, Stop>
    ensures { Ran (found_line id) client.old client.new (L.exchanges link.old) (L.exchanges link.new) result }
{
    let found: PtEntry = ask(client, link, &PtCall::ListEntry { id })?;
    let line = owned_line(client.alloc(), found.name.as_slice(), found.id)?;
    Ok(line)
}

/// The names of the entries that a call lists, behind a line.
fn list_names<L: Link>(
    client: &mut Client<'_>,
    link: &mut L,
    head: Bytes,
    call: &PtCall,
) -> Result<Bytes, Stop>
    ensures { Ran (lists_names head call.now) client.old client.new (L.exchanges link.old) (L.exchanges link.new) result }
{
    let ids: Ids = ask(client, link, call)?;
    let names = names_of(client, link, ids.as_slice())?;
    let text = names_behind(client.alloc(), head, &names)?;
    Ok(text)
}

/// An entry with its fields.
pub(crate) fn examine<L: Link>(
    client: &mut Client<'_>,
    link: &mut L,
    entry: &Entry,
) -> Result<Bytes, Stop>
    ensures { Ran (examines entry.now) client.old client.new (L.exchanges link.old) (L.exchanges link.new) result }
{
    let id = entry_id(client, link, entry)?;
    let found: PtEntry = ask(client, link, &PtCall::ListEntry { id })?;
    let names = names_of(client, link, &[found.owner, found.creator])?;
    let text = entry_text(client.alloc(), &found, &names)?;
    Ok(text)
}

/// The table of all users, of all groups, or of both.
pub(crate) fn list_entries<L: Link>(
    client: &mut Client<'_>,
    link: &mut L,
    kinds: u32,
) -> Result<Bytes, Stop>
    ensures { Ran (lists_entries kinds) client.old client.new (L.exchanges link.old) (L.exchanges link.new) result }
{
    let head = head_row(client.alloc())?;
    list_pages(client, link, kinds, head)
}

/// Pages of entries, until one is not full, as rows behind a text.
fn list_pages<L: Link>(
    client: &mut Client<'_>,
    link: &mut L,
    kinds: u32,
    head: Bytes,
) -> Result<Bytes, Stop>
    ensures { Ran (lists_pages MOST_PAGES kinds i32.MIN head) client.old client.new (L.exchanges link.old) (L.exchanges link.new) result }
{
    let mut after = i32::MIN;
    let mut text = head;
    for _ in 0..MOST_PAGES {
        let page: Entries = ask(client, link, &PtCall::ListEntries { kinds, after })?;
        text = rows_behind(client.alloc(), text, page.as_slice())?;
        if page.as_slice().len() < MAX_PAGE as usize {
            return Ok(text);
        }
        after = last_id(after, page.as_slice());
    }
    Ok(text)
}

/// The id of the last entry, or this one where there is none.
fn last_id(after: i32, entries: &[PtEntry]) -> i32
    ensures { result ≡ last_id after entries.now }
{
    match entries {
        [] => after,
        [.., last] => last.id,
    }
}

/// The greatest ids that were given.
pub(crate) fn list_max<L: Link>(client: &mut Client<'_>, link: &mut L) -> Result<Bytes, Stop>
    ensures { Ran lists_maxima client.old client.new (L.exchanges link.old) (L.exchanges link.new) result }
{
    let maxima: Maxima = ask(client, link, &PtCall::ListMax)?;
    let text = maxima_text(client.alloc(), maxima)?;
    Ok(text)
}
