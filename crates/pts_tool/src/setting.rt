//! Calls of which nothing is written.
ghost use Rattle.pt_calls.specs.declared.calls.PtCall.TheVariants as call;
ghost use Rattle.pts_tool.specs.Courses.{does, sets_fields};
ghost use Rattle.tool_base.specs.Running.{Ran};

use crate::asking::ask;
use crate::names::entry_id;
use afs_commands::Entry;
use io_base::Link;
use pt_calls::PtCall;
use tool_base::{Client, Stop};
use ubik_types::Bytes;

/// Asks a call that tells nothing but that it took place. Its text is empty.
pub(crate) fn do_call<L: Link>(
    client: &mut Client<'_>,
    link: &mut L,
    call: &PtCall,
) -> Result<Bytes, Stop>
    ensures { Ran (does call.now) client.old client.new (L.exchanges link.old) (L.exchanges link.new) result }
{
    let text = Vec::new(client.alloc());
    let () = ask(client, link, call)?;
    Ok(Bytes::new(text))
}

/// Sets the greatest id of users, or of groups.
pub(crate) fn set_max<L: Link>(
    client: &mut Client<'_>,
    link: &mut L,
    id: i32,
    is_group: bool,
) -> Result<Bytes, Stop>
    ensures { Ran (does (call.SetMax id is_group)) client.old client.new (L.exchanges link.old) (L.exchanges link.new) result }
{
    do_call(client, link, &PtCall::SetMax { id, is_group })
}

/// Sets the fields of an entry that the mask names.
pub(crate) fn set_fields<L: Link>(
    client: &mut Client<'_>,
    link: &mut L,
    entry: &Entry,
    mask: u32,
    flags: u32,
    quota: i32,
) -> Result<Bytes, Stop>
    ensures { Ran (sets_fields entry.now mask flags quota) client.old client.new (L.exchanges link.old) (L.exchanges link.new) result }
{
    let id = entry_id(client, link, entry)?;
    let call = PtCall::SetFields {
        id,
        mask,
        flags,
        quota,
    };
    do_call(client, link, &call)
}
