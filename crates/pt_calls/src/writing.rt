//! Calls as bytes.
ghost use Rattle.std.specs.Prelude.{◌≡◌, ◌++◌, IfOk, OnOk};
ghost use Rattle.call_grammar.specs.Items.{xdr_text};
ghost use Rattle.call_grammar.specs.Lists.{spelled};
ghost use Rattle.pt_calls.specs.Calls.{HasSpelling, spelling, shapes_of, call_kind, call_values};
ghost use Rattle.pt_calls.specs.Shapes.{shape_text, value};

use crate::calls::PtCall;
use crate::texts::Value::{Id, Name, Number, Truth};
use crate::texts::{Value, put};
use std::alloc::Global;
use ubik_types::{Bytes, NoMemory};
use xdr_base::XdrWriter;

/// The bytes of a call.
pub fn spell_call(alloc: Global, call: &PtCall) -> Result<Bytes, NoMemory>
    requires { HasSpelling call.now }
    ensures { IfOk result (λ bytes. bytes ≡ spelling call.now) }
{
    let mut out = XdrWriter::new(alloc);
    out.put_u32(call.kind().number())?;
    put_fields(&mut out, call)?;
    Ok(out.finish())
}

/// Writes the fields of a call.
fn put_fields(out: &mut XdrWriter, call: &PtCall) -> Result<(), NoMemory>
    requires { HasSpelling call.now }
    ensures { OnOk result (out.new ≡ out.old
        ++ spelled value (shape_text xdr_text) (shapes_of (call_kind call.now)) (call_values call.now)) }
{
    match call {
        PtCall::NewEntry { name, kind, owner } => put(out, &[Name(name), Number(kind), Id(owner)]),
        PtCall::INewEntry { name, id, owner } => put(out, &[Name(name), Id(id), Id(owner)]),
        PtCall::NameToId { names } => put(out, &[Value::Names(names)]),
        PtCall::IdToName { ids } => put(out, &[Value::Ids(ids)]),
        PtCall::Delete { id } => put(out, &[Id(id)]),
        PtCall::AddToGroup { member, group } => put(out, &[Id(member), Id(group)]),
        PtCall::RemoveFromGroup { member, group } => put(out, &[Id(member), Id(group)]),
        PtCall::GetCps { id } => put(out, &[Id(id)]),
        PtCall::ListMax => Ok(()),
        PtCall::SetMax { id, is_group } => put(out, &[Id(id), Truth(is_group)]),
        PtCall::ListEntry { id } => put(out, &[Id(id)]),
        PtCall::ListEntries { kinds, after } => put(out, &[Number(kinds), Id(after)]),
        PtCall::ChangeEntry {
            id,
            name,
            owner,
            new_id,
        } => put(out, &[Id(id), Name(name), Id(owner), Id(new_id)]),
        PtCall::SetFields {
            id,
            mask,
            flags,
            quota,
        } => put(out, &[Id(id), Number(mask), Number(flags), Id(quota)]),
        PtCall::ListElements { id } => put(out, &[Id(id)]),
        PtCall::IsMemberOf { member, group } => put(out, &[Id(member), Id(group)]),
        PtCall::ListOwned { id } => put(out, &[Id(id)]),
    }
}
