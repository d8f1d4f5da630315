//! The calls of each kind, value by value.
#![tactic(auto, unfolding(crate::specs::Reading::call_at))]

ghost use Rattle.call_grammar.specs.Reading.{Gives};
ghost use Rattle.vl_calls.specs.Reading.{call_at};
ghost use Rattle.vl_calls.specs.declared.kinds.CallKind.TheVariants as kinds;

use crate::calls::{GivenEntry, VlCall};
use crate::forms::GivenForm;
use call_grammar::{Form, NotRead, Source};
use std::alloc::Global;
use ubik_types::bytes_of;

pub(crate) fn get_new_volume_id<'a, S: Source<'a>>(from: &mut S) -> Result<VlCall, NotRead>
    ensures { Gives (λ c. c) from.new result (call_at S.item_at kinds.GetNewVolumeId from.old) }
{
    Ok(VlCall::GetNewVolumeId {
        bump: from.number()?,
    })
}

pub(crate) fn create_entry<'a, S: Source<'a>>(
    alloc: Global,
    from: &mut S,
) -> Result<VlCall, NotRead>
    ensures { Gives (λ c. c) from.new result (call_at S.item_at kinds.CreateEntry from.old) }
{
    let entry = <GivenForm as Form<'a, S, GivenEntry>>::read(alloc, from)?;
    Ok(VlCall::CreateEntry { entry })
}

pub(crate) fn delete_entry<'a, S: Source<'a>>(from: &mut S) -> Result<VlCall, NotRead>
    ensures { Gives (λ c. c) from.new result (call_at S.item_at kinds.DeleteEntry from.old) }
{
    Ok(VlCall::DeleteEntry {
        id: from.number()?,
        volume_type: from.signed()?,
    })
}

pub(crate) fn get_entry_by_id<'a, S: Source<'a>>(from: &mut S) -> Result<VlCall, NotRead>
    ensures { Gives (λ c. c) from.new result (call_at S.item_at kinds.GetEntryById from.old) }
{
    Ok(VlCall::GetEntryById {
        id: from.number()?,
        volume_type: from.signed()?,
    })
}

pub(crate) fn get_entry_by_name<'a, S: Source<'a>>(
    alloc: Global,
    from: &mut S,
) -> Result<VlCall, NotRead>
    ensures { Gives (λ c. c) from.new result (call_at S.item_at kinds.GetEntryByName from.old) }
{
    let name = from.text()?;
    Ok(VlCall::GetEntryByName {
        name: bytes_of(alloc, name)?,
    })
}

pub(crate) fn replace_entry<'a, S: Source<'a>>(
    alloc: Global,
    from: &mut S,
) -> Result<VlCall, NotRead>
    ensures { Gives (λ c. c) from.new result (call_at S.item_at kinds.ReplaceEntry from.old) }
{
    Ok(VlCall::ReplaceEntry {
        id: from.number()?,
        volume_type: from.signed()?,
        entry: <GivenForm as Form<'a, S, GivenEntry>>::read(alloc, from)?,
        mask: from.number()?,
    })
}

pub(crate) fn set_lock<'a, S: Source<'a>>(from: &mut S) -> Result<VlCall, NotRead>
    ensures { Gives (λ c. c) from.new result (call_at S.item_at kinds.SetLock from.old) }
{
    Ok(VlCall::SetLock {
        id: from.number()?,
        volume_type: from.signed()?,
        operation: from.number()?,
    })
}

pub(crate) fn release_lock<'a, S: Source<'a>>(from: &mut S) -> Result<VlCall, NotRead>
    ensures { Gives (λ c. c) from.new result (call_at S.item_at kinds.ReleaseLock from.old) }
{
    Ok(VlCall::ReleaseLock {
        id: from.number()?,
        volume_type: from.signed()?,
        mask: from.number()?,
    })
}

pub(crate) fn list_attributes<'a, S: Source<'a>>(from: &mut S) -> Result<VlCall, NotRead>
    ensures { Gives (λ c. c) from.new result (call_at S.item_at kinds.ListAttributes from.old) }
{
    Ok(VlCall::ListAttributes {
        after: from.number()?,
        host: from.number()?,
        partition: from.signed()?,
        locked: from.truth()?,
    })
}

pub(crate) fn change_addr<'a, S: Source<'a>>(from: &mut S) -> Result<VlCall, NotRead>
    ensures { Gives (λ c. c) from.new result (call_at S.item_at kinds.ChangeAddr from.old) }
{
    Ok(VlCall::ChangeAddr {
        from: from.number()?,
        to: from.number()?,
    })
}
