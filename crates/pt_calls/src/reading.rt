//! Calls, read from where their values come from.
ghost use Rattle.std.specs.Prelude.{◌≡◌, IfOk, IfSome, Some};
ghost use Rattle.call_grammar.specs.Reading.{Gives, Shows};
ghost use Rattle.pt_calls.specs.declared.calls.PtCall.{PtCall};
ghost use Rattle.pt_calls.specs.Calls.{IsCall, spelling};
ghost use Rattle.pt_calls.specs.Reading.{call_at, call_of, front_call};

use crate::by_kind;
use crate::calls::PtCall;
use crate::kinds::CallKind;
use call_grammar::{NotRead, Source, at_end};
use std::alloc::Global;
use ubik_types::NoMemory;
use xdr_base::XdrReader;

/// The call that these bytes spell, all of them; none where they spell no call.
pub fn read_call(alloc: Global, bytes: &[u8]) -> Result<Option<PtCall>, NoMemory>
    // What is read is spelled so.
    ensures found { IfOk result (λ read. IfSome read (λ c. IsCall c × (bytes.now ≡ spelling c))) }
    // What is spelled so is read.
    ensures only { (c : PtCall) → IsCall c → bytes.now ≡ spelling c → IfOk result (λ read. read ≡ Some c) }
    ensures exact { IfOk result (λ read. read ≡ call_of bytes.now) }
{
    match whole_call(alloc, bytes) {
        Ok(call) => Ok(Some(call)),
        Err(NotRead::None) => Ok(None),
        Err(NotRead::NoMemory) => Err(NoMemory),
    }
}

#[tactic(auto, unfolding(crate::specs::Reading::call_of))]
fn whole_call(alloc: Global, bytes: &[u8]) -> Result<PtCall, NotRead>
    ensures { Shows result (call_of bytes.now) }
{
    let mut from = XdrReader::new(bytes);
    let call = front_call(alloc, &mut from)?;
    at_end(&from)?;
    Ok(call)
}

/// The call at the front.
#[tactic(auto, unfolding(crate::specs::Reading::front_call))]
fn front_call(alloc: Global, from: &mut XdrReader<'_>) -> Result<PtCall, NotRead>
    ensures { Gives (λ c. c) from.new result (front_call from.old) }
{
    let number = from.number()?;
    match CallKind::numbered(number) {
        Some(kind) => call_in(alloc, kind, from),
        None => Err(NotRead::None),
    }
}

/// The call of this kind.
pub(crate) fn call_in<'a, S: Source<'a>>(
    alloc: Global,
    kind: CallKind,
    from: &mut S,
) -> Result<PtCall, NotRead>
    ensures { Gives (λ c. c) from.new result (call_at S.item_at kind from.old) }
{
    match kind {
        CallKind::NewEntry => by_kind::new_entry(alloc, from),
        CallKind::INewEntry => by_kind::new_entry_with_id(alloc, from),
        CallKind::NameToId => by_kind::name_to_id(alloc, from),
        CallKind::IdToName => by_kind::id_to_name(alloc, from),
        CallKind::Delete => by_kind::delete(from),
        CallKind::AddToGroup => by_kind::add_to_group(from),
        CallKind::RemoveFromGroup => by_kind::remove_from_group(from),
        CallKind::GetCps => by_kind::get_cps(from),
        CallKind::ListMax => Ok(PtCall::ListMax),
        CallKind::SetMax => by_kind::set_max(from),
        CallKind::ListEntry => by_kind::list_entry(from),
        CallKind::ListEntries => by_kind::list_entries(from),
        CallKind::ChangeEntry => by_kind::change_entry(alloc, from),
        CallKind::SetFields => by_kind::set_fields(from),
        CallKind::ListElements => by_kind::list_elements(from),
        CallKind::IsMemberOf => by_kind::is_member_of(from),
        CallKind::ListOwned => by_kind::list_owned(from),
    }
}
