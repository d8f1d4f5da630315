//! Names and ids of entries: each by the other.
ghost use Rattle.std.specs.Prelude.{◌≡◌, [], ◌∷◌, ◌++◌, take, drop, IfOk};
ghost use Rattle.pt_calls.specs.declared.calls.PtCall.TheVariants as call;
ghost use Rattle.pts_tool.specs.Answers.{names_in};
ghost use Rattle.pts_tool.specs.Asking.{asks};
ghost use Rattle.pts_tool.specs.Names.{known_id, name_id, the_id, owner_id, the_names};
ghost use Rattle.tool_base.specs.Running.{Ran};

use crate::asking::ask;
use afs_commands::Entry;
use call_grammar::Items;
use io_base::Link;
use pt_calls::{Ids, MAX_LIST, Names, PtCall};
use std::alloc::Global;
use tool_base::{Client, Refusal, Stop};
use ubik_types::{Bytes, NoMemory, bytes_of};

/// The id of `anonymous`, to which the database translates a name that no entry has (ptserver).
pub(crate) const ANONYMOUS: i32 = 32_766;

/// No entry has the name or id (ptserver).
pub(crate) const NO_ENTRY: u32 = 267_268;

/// The id of an entry that there is: its own, or the one that its name is translated to.
pub(crate) fn entry_id<L: Link>(
    client: &mut Client<'_>,
    link: &mut L,
    entry: &Entry,
) -> Result<i32, Stop>
    ensures { Ran (the_id entry.now) client.old client.new (L.exchanges link.old) (L.exchanges link.new) result }
{
    match entry.id() {
        Some(id) => Ok(id),
        None => name_id(client, link, entry.word()),
    }
}

/// The id of an entry that there is, by its name.
fn name_id<L: Link>(client: &mut Client<'_>, link: &mut L, name: &[u8]) -> Result<i32, Stop>
    ensures { Ran (name_id name.now) client.old client.new (L.exchanges link.old) (L.exchanges link.new) result }
{
    let names = one_name(client.alloc(), name)?;
    let id = ask(client, link, &PtCall::NameToId { names })?;
    known_id(name, id)
}

/// A list of one name.
fn one_name(alloc: Global, name: &[u8]) -> Result<Names, NoMemory>
    ensures { IfOk result (λ names. names ≡ name.now ∷ []) }
{
    let mut names = Vec::new(alloc);
    names.push(bytes_of(alloc, name)?)?;
    Ok(Items::new(names))
}

/// The id of a name, where an entry has it.
fn known_id(name: &[u8], id: i32) -> Result<i32, Stop>
    ensures { result ≡ known_id name.now id }
{
    if id == ANONYMOUS && name != b"anonymous".as_slice() {
        Err(Stop::Refused(Refusal::Rule(NO_ENTRY)))
    } else {
        Ok(id)
    }
}

/// The id of an owner, 0 where none was given.
pub(crate) fn owner_id<L: Link>(
    client: &mut Client<'_>,
    link: &mut L,
    owner: &Option<Entry>,
) -> Result<i32, Stop>
    ensures { Ran (owner_id owner.now) client.old client.new (L.exchanges link.old) (L.exchanges link.new) result }
{
    match owner {
        Some(entry) => entry_id(client, link, entry),
        None => Ok(0),
    }
}

/// The names of ids, in calls of at most 5,000 ids each.
pub(crate) fn names_of<L: Link>(
    client: &mut Client<'_>,
    link: &mut L,
    ids: &[i32],
) -> Result<Names, Stop>
    ensures { Ran (the_names ids.now) client.old client.new (L.exchanges link.old) (L.exchanges link.new) result }
{
    let calls = (ids.len() + 4999) / MAX_LIST as usize;
    let mut names = Vec::new(client.alloc());
    let mut left = ids;
    for _ in 0..calls {
        let (now, later) = split(left);
        let found = names_of_some(client, link, now)?;
        let all = extended(names, found)?;
        names = all;
        left = later;
    }
    Ok(Items::new(names))
}

/// The first ids, as many as one call may have, and those behind them.
#[tactic(auto, using(std::proofs::lemmas::List::take_min, std::proofs::lemmas::List::drop_min))]
fn split(ids: &[i32]) -> (&[i32], &[i32])
    ensures now { result.0.now ≡ take MAX_LIST ids.now }
    ensures later { result.1.now ≡ drop MAX_LIST ids.now }
{
    ids.split_at((MAX_LIST as usize).min(ids.len()))
}

/// Names with more behind them.
fn extended(names: Vec<Bytes>, more: Names) -> Result<Vec<Bytes>, NoMemory>
    ensures { IfOk result (λ all. all.items ≡ names.items ++ more) }
{
    let mut all = names;
    all.append(&mut more.into_vec())?;
    Ok(all)
}

/// The names of ids that one call may have.
fn names_of_some<L: Link>(client: &mut Client<'_>, link: &mut L, ids: &[i32]) -> Result<Names, Stop>
    ensures { Ran (asks names_in (call.IdToName ids.now)) client.old client.new (L.exchanges link.old) (L.exchanges link.new) result }
{
    let ids = some_ids(client.alloc(), ids)?;
    ask(client, link, &PtCall::IdToName { ids })
}

/// A copy of ids.
fn some_ids(alloc: Global, ids: &[i32]) -> Result<Ids, NoMemory>
    ensures { IfOk result (λ list. list ≡ ids.now) }
{
    Ok(Items::new(ids.to_vec(alloc)?))
}
