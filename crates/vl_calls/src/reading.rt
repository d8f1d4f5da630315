//! Calls, read from where their values come from.
ghost use Rattle.std.specs.Prelude.{◌≡◌, IfOk, IfSome, Some};
ghost use Rattle.call_grammar.specs.Reading.{Gives, Shows};
ghost use Rattle.vl_calls.specs.declared.calls.VlCall.{VlCall};
ghost use Rattle.vl_calls.specs.Calls.{IsCall, spelling};
ghost use Rattle.vl_calls.specs.Reading.{call_at, call_of, front_call};

use crate::by_kind;
use crate::calls::VlCall;
use crate::kinds::CallKind;
use call_grammar::{NotRead, Source, at_end};
use std::alloc::Global;
use ubik_types::NoMemory;
use xdr_base::XdrReader;

/// The call that these bytes spell, all of them; none where they spell no call.
pub fn read_call(alloc: Global, bytes: &[u8]) -> Result<Option<VlCall>, NoMemory>
    // What is read is spelled so.
    ensures found { IfOk result (λ read. IfSome read (λ c. IsCall c × (bytes.now ≡ spelling c))) }
    // What is spelled so is read.
    ensures only { (c : VlCall) → IsCall c → bytes.now ≡ spelling c → IfOk result (λ read. read ≡ Some c) }
    ensures exact { IfOk result (λ read. read ≡ call_of bytes.now) }
{
    match whole_call(alloc, bytes) {
        Ok(call) => Ok(Some(call)),
        Err(NotRead::None) => Ok(None),
        Err(NotRead::NoMemory) => Err(NoMemory),
    }
}

#[tactic(auto, unfolding(crate::specs::Reading::call_of))]
fn whole_call(alloc: Global, bytes: &[u8]) -> Result<VlCall, NotRead>
    ensures { Shows result (call_of bytes.now) }
{
    let mut from = XdrReader::new(bytes);
    let call = front_call(alloc, &mut from)?;
    at_end(&from)?;
    Ok(call)
}

/// The call at the front.
#[tactic(auto, unfolding(crate::specs::Reading::front_call))]
fn front_call(alloc: Global, from: &mut XdrReader<'_>) -> Result<VlCall, NotRead>
    ensures { Gives (λ c. c) from.new result (front_call from.old) }
{
    let number = from.number()?;
    match CallKind::numbered(number) {
        Some(kind) => call_in(alloc, kind, from),
        None => Err(NotRead::None),
    }
}

/// The call of this kind.
pub(crate) fn call_in<'a, S: Source<'a>>(
    alloc: Global,
    kind: CallKind,
    from: &mut S,
) -> Result<VlCall, NotRead>
    ensures { Gives (λ c. c) from.new result (call_at S.item_at kind from.old) }
{
    match kind {
        CallKind::GetNewVolumeId => by_kind::get_new_volume_id(from),
        CallKind::CreateEntry => by_kind::create_entry(alloc, from),
        CallKind::DeleteEntry => by_kind::delete_entry(from),
        CallKind::GetEntryById => by_kind::get_entry_by_id(from),
        CallKind::GetEntryByName => by_kind::get_entry_by_name(alloc, from),
        CallKind::ReplaceEntry => by_kind::replace_entry(alloc, from),
        CallKind::SetLock => by_kind::set_lock(from),
        CallKind::ReleaseLock => by_kind::release_lock(from),
        CallKind::ListAttributes => by_kind::list_attributes(from),
        CallKind::GetAddrs => Ok(VlCall::GetAddrs),
        CallKind::ChangeAddr => by_kind::change_addr(from),
        CallKind::Probe => Ok(VlCall::Probe),
    }
}
