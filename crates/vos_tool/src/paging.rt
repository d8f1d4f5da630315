//! Entries of a listing, read in pages.
ghost use Rattle.std.specs.Prelude.{◌≡◌, ◌++◌, IfOk, OnOk};
ghost use Rattle.tool_base.specs.Running.{Ran};
ghost use Rattle.vos_tool.specs.Answers.{IsPage};
ghost use Rattle.vos_tool.specs.Listing.{entries_of, last_id, page_call};
ghost use Rattle.vos_tool.specs.Asking.{asks_page};

use crate::answers::Page;
use crate::asking::ask;
use crate::listing::Filter;
use call_grammar::Items;
use io_base::Link;
use tool_base::{Client, Stop};
use ubik_types::NoMemory;
use vl_calls::{Entries, MAX_PAGE, VlCall};
use vldb_entries::VlEntry;

/// More pages than there are: each has an id of its own.
pub const MOST_PAGES: u32 = u32::MAX;

/// All entries that a filter lets through.
pub fn entries_of<L: Link>(
    client: &mut Client<'_>,
    link: &mut L,
    filter: Filter,
) -> Result<Entries, Stop>
    ensures { Ran (entries_of filter) client.old client.new (L.exchanges link.old) (L.exchanges link.new) result }
{
    let mut found = Vec::new(client.alloc());
    let mut after = 0;
    for _ in 0..MOST_PAGES {
        let page = page_behind(client, link, filter, after)?;
        let listed = page.as_slice();
        let count = listed.len();
        let last = last_id(after, listed);
        add_page(&mut found, page)?;
        if count < MAX_PAGE as usize {
            return Ok(Items::new(found));
        }
        after = last;
    }
    Ok(Items::new(found))
}

/// Puts the entries of a page behind those that were found.
fn add_page(found: &mut Vec<VlEntry>, page: Entries) -> Result<(), NoMemory>
    ensures { OnOk result (found.new.items ≡ found.old.items ++ page) }
{
    let mut list = page.into_vec();
    found.append(&mut list)?;
    Ok(())
}

/// The page behind an id.
fn page_behind<L: Link>(
    client: &mut Client<'_>,
    link: &mut L,
    filter: Filter,
    after: u32,
) -> Result<Entries, Stop>
    ensures ran { Ran (asks_page after (page_call filter after)) client.old client.new (L.exchanges link.old) (L.exchanges link.new) result }
    ensures limits { IfOk result (IsPage after) }
{
    let call = VlCall::ListAttributes {
        after,
        host: filter.host,
        partition: filter.partition,
        locked: filter.locked,
    };
    ask(client, link, &call, &Page { after })
}

/// The last id of a page, or what was before it.
fn last_id(after: u32, page: &[VlEntry]) -> u32
    ensures { result ≡ last_id after page.now }
{
    page.iter().fold(after, |_, entry| entry.rw)
}
