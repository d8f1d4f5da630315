//! The calls of each kind, value by value.
#![tactic(auto, unfolding(crate::specs::Reading::call_at))]

ghost use Rattle.call_grammar.specs.Reading.{Gives};
ghost use Rattle.pt_calls.specs.Reading.{call_at};
ghost use Rattle.pt_calls.specs.declared.kinds.CallKind.TheVariants as kinds;

use crate::calls::PtCall;
use crate::limits::MAX_LIST;
use call_grammar::{Form, NotRead, SignedItem, Source, TextItem, read_list};
use std::alloc::Global;
use ubik_types::{Bytes, bytes_of};

pub(crate) fn new_entry<'a, S: Source<'a>>(alloc: Global, from: &mut S) -> Result<PtCall, NotRead>
    ensures { Gives (λ c. c) from.new result (call_at S.item_at kinds.NewEntry from.old) }
{
    let name = from.text()?;
    Ok(PtCall::NewEntry {
        name: bytes_of(alloc, name)?,
        kind: from.number()?,
        owner: from.signed()?,
    })
}

pub(crate) fn new_entry_with_id<'a, S: Source<'a>>(
    alloc: Global,
    from: &mut S,
) -> Result<PtCall, NotRead>
    ensures { Gives (λ c. c) from.new result (call_at S.item_at kinds.INewEntry from.old) }
{
    let name = from.text()?;
    Ok(PtCall::INewEntry {
        name: bytes_of(alloc, name)?,
        id: from.signed()?,
        owner: from.signed()?,
    })
}

pub(crate) fn name_to_id<'a, S: Source<'a>>(alloc: Global, from: &mut S) -> Result<PtCall, NotRead>
    ensures { Gives (λ c. c) from.new result (call_at S.item_at kinds.NameToId from.old) }
{
    Ok(PtCall::NameToId {
        names: read_list::<S, Bytes, TextItem>(alloc, from, MAX_LIST)?,
    })
}

pub(crate) fn id_to_name<'a, S: Source<'a>>(alloc: Global, from: &mut S) -> Result<PtCall, NotRead>
    ensures { Gives (λ c. c) from.new result (call_at S.item_at kinds.IdToName from.old) }
{
    Ok(PtCall::IdToName {
        ids: read_list::<S, i32, SignedItem>(alloc, from, MAX_LIST)?,
    })
}

pub(crate) fn delete<'a, S: Source<'a>>(from: &mut S) -> Result<PtCall, NotRead>
    ensures { Gives (λ c. c) from.new result (call_at S.item_at kinds.Delete from.old) }
{
    Ok(PtCall::Delete { id: from.signed()? })
}

pub(crate) fn add_to_group<'a, S: Source<'a>>(from: &mut S) -> Result<PtCall, NotRead>
    ensures { Gives (λ c. c) from.new result (call_at S.item_at kinds.AddToGroup from.old) }
{
    Ok(PtCall::AddToGroup {
        member: from.signed()?,
        group: from.signed()?,
    })
}

pub(crate) fn remove_from_group<'a, S: Source<'a>>(from: &mut S) -> Result<PtCall, NotRead>
    ensures { Gives (λ c. c) from.new result (call_at S.item_at kinds.RemoveFromGroup from.old) }
{
    Ok(PtCall::RemoveFromGroup {
        member: from.signed()?,
        group: from.signed()?,
    })
}

pub(crate) fn get_cps<'a, S: Source<'a>>(from: &mut S) -> Result<PtCall, NotRead>
    ensures { Gives (λ c. c) from.new result (call_at S.item_at kinds.GetCps from.old) }
{
    Ok(PtCall::GetCps { id: from.signed()? })
}

pub(crate) fn set_max<'a, S: Source<'a>>(from: &mut S) -> Result<PtCall, NotRead>
    ensures { Gives (λ c. c) from.new result (call_at S.item_at kinds.SetMax from.old) }
{
    Ok(PtCall::SetMax {
        id: from.signed()?,
        is_group: from.truth()?,
    })
}

pub(crate) fn list_entry<'a, S: Source<'a>>(from: &mut S) -> Result<PtCall, NotRead>
    ensures { Gives (λ c. c) from.new result (call_at S.item_at kinds.ListEntry from.old) }
{
    Ok(PtCall::ListEntry { id: from.signed()? })
}

pub(crate) fn list_entries<'a, S: Source<'a>>(from: &mut S) -> Result<PtCall, NotRead>
    ensures { Gives (λ c. c) from.new result (call_at S.item_at kinds.ListEntries from.old) }
{
    Ok(PtCall::ListEntries {
        kinds: from.number()?,
        after: from.signed()?,
    })
}

pub(crate) fn change_entry<'a, S: Source<'a>>(
    alloc: Global,
    from: &mut S,
) -> Result<PtCall, NotRead>
    ensures { Gives (λ c. c) from.new result (call_at S.item_at kinds.ChangeEntry from.old) }
{
    Ok(PtCall::ChangeEntry {
        id: from.signed()?,
        name: <TextItem as Form<'a, S, Bytes>>::read(alloc, from)?,
        owner: from.signed()?,
        new_id: from.signed()?,
    })
}

pub(crate) fn set_fields<'a, S: Source<'a>>(from: &mut S) -> Result<PtCall, NotRead>
    ensures { Gives (λ c. c) from.new result (call_at S.item_at kinds.SetFields from.old) }
{
    Ok(PtCall::SetFields {
        id: from.signed()?,
        mask: from.number()?,
        flags: from.number()?,
        quota: from.signed()?,
    })
}

pub(crate) fn list_elements<'a, S: Source<'a>>(from: &mut S) -> Result<PtCall, NotRead>
    ensures { Gives (λ c. c) from.new result (call_at S.item_at kinds.ListElements from.old) }
{
    Ok(PtCall::ListElements { id: from.signed()? })
}

pub(crate) fn is_member_of<'a, S: Source<'a>>(from: &mut S) -> Result<PtCall, NotRead>
    ensures { Gives (λ c. c) from.new result (call_at S.item_at kinds.IsMemberOf from.old) }
{
    Ok(PtCall::IsMemberOf {
        member: from.signed()?,
        group: from.signed()?,
    })
}

pub(crate) fn list_owned<'a, S: Source<'a>>(from: &mut S) -> Result<PtCall, NotRead>
    ensures { Gives (λ c. c) from.new result (call_at S.item_at kinds.ListOwned from.old) }
{
    Ok(PtCall::ListOwned { id: from.signed()? })
}
