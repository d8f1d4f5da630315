//! The items of a command.
ghost use Rattle.pts_tool.specs.Courses.{task_course, works};
ghost use Rattle.std.specs.Prelude.{◌≡◌, Err};
ghost use Rattle.disk_base.specs.Count.{HasCause};
ghost use Rattle.tool_base.specs.Running.{Ran, ToldSome};

use crate::listing::{examine, list_entries, list_max, list_members, list_owned};
use crate::making::{change, create, delete, move_member};
use crate::setting::{set_fields, set_max};
use afs_commands::Entry;
use disk_base::Sink;
use io_base::Link;
use tool_base::{Client, Stop, say};
use ubik_types::Bytes;

/// One item of what a command does.
#[derive(Drop)]
pub(crate) enum Task {
    /// Makes a user, or a group, with the next id or with this one.
    Create {
        name: Bytes,
        is_group: bool,
        owner: Option<Entry>,
        id: Option<i32>,
    },
    Delete {
        entry: Entry,
    },
    /// Gives an entry another name, where it is not empty, or another owner.
    Change {
        entry: Entry,
        name: Bytes,
        owner: Option<Entry>,
    },
    /// Puts a user into a group, or takes him out of it.
    Member {
        user: Entry,
        group: Entry,
        adds: bool,
    },
    Membership {
        entry: Entry,
    },
    Examine {
        entry: Entry,
    },
    ListOwned {
        entry: Entry,
    },
    /// 1 for users, 2 for groups, 3 for both.
    ListEntries {
        kinds: u32,
    },
    ListMax,
    SetMax {
        id: i32,
        is_group: bool,
    },
    /// The mask names what is set: 1 for flags, 2 for the quota.
    SetFields {
        entry: Entry,
        mask: u32,
        flags: u32,
        quota: i32,
    },
}

impl Task {
    /// Makes the calls of the item, and gives its text.
    pub(crate) fn run<L: Link>(&self, client: &mut Client<'_>, link: &mut L) -> Result<Bytes, Stop>
        ensures { Ran (task_course self.now) client.old client.new (L.exchanges link.old) (L.exchanges link.new) result }
    {
        match self {
            Task::Create {
                name,
                is_group,
                owner,
                id,
            } => create(client, link, name, *is_group, owner, *id),
            Task::Delete { entry } => delete(client, link, entry),
            Task::Change { entry, name, owner } => change(client, link, entry, name, owner),
            Task::Member { user, group, adds } => move_member(client, link, user, group, *adds),
            Task::Membership { entry } => list_members(client, link, entry),
            Task::Examine { entry } => examine(client, link, entry),
            Task::ListOwned { entry } => list_owned(client, link, entry),
            Task::ListEntries { kinds } => list_entries(client, link, *kinds),
            Task::ListMax => list_max(client, link),
            Task::SetMax { id, is_group } => set_max(client, link, *id, *is_group),
            Task::SetFields {
                entry,
                mask,
                flags,
                quota,
            } => set_fields(client, link, entry, *mask, *flags, *quota),
        }
    }
}

/// Works through items, one after the other, and writes the text of each.
pub(crate) fn run_all<L: Link, K: Sink>(
    client: &mut Client<'_>,
    link: &mut L,
    tasks: &[Task],
    out: &mut K,
) -> Result<(), Stop>
    ensures told { ToldSome (works tasks.now) client.old (L.exchanges link.old) (L.exchanges link.new)
        (K.written out.old) (K.written out.new) result }
    ensures cause { HasCause (K.faults out.old) (K.faults out.new) (result ≡ Err Stop.WriteFault) }
{
    for task in tasks {
        let text = task.run(client, link)?;
        say(out, text.as_slice())?;
    }
    Ok(())
}
