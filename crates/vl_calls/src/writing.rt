//! Calls as bytes.
ghost use Rattle.std.specs.Prelude.{◌≡◌, ◌++◌, IfOk, OnOk};
ghost use Rattle.call_grammar.specs.Items.{xdr_text};
ghost use Rattle.call_grammar.specs.Lists.{spelled};
ghost use Rattle.vl_calls.specs.Calls.{HasSpelling, spelling, shapes_of, call_kind, call_values};
ghost use Rattle.vl_calls.specs.Shapes.{shape_text, value};

use crate::calls::VlCall;
use crate::texts::Value::{Name, Number, Signed, Truth};
use crate::texts::{put, put_given};
use std::alloc::Global;
use ubik_types::{Bytes, NoMemory};
use xdr_base::XdrWriter;

/// The bytes of a call.
pub fn spell_call(alloc: Global, call: &VlCall) -> Result<Bytes, NoMemory>
    requires { HasSpelling call.now }
    ensures { IfOk result (λ bytes. bytes ≡ spelling call.now) }
{
    let mut out = XdrWriter::new(alloc);
    out.put_u32(call.kind().number())?;
    put_fields(&mut out, call)?;
    Ok(out.finish())
}

/// Writes the fields of a call.
fn put_fields(out: &mut XdrWriter, call: &VlCall) -> Result<(), NoMemory>
    requires { HasSpelling call.now }
    ensures { OnOk result (out.new ≡ out.old ++ spelled value (shape_text xdr_text) (shapes_of (call_kind call.now)) (call_values call.now)) }
{
    match call {
        VlCall::GetNewVolumeId { bump } => put(out, &[Number(bump)]),
        VlCall::CreateEntry { entry } => put_given(out, entry),
        VlCall::DeleteEntry { id, volume_type } => put(out, &[Number(id), Signed(volume_type)]),
        VlCall::GetEntryById { id, volume_type } => put(out, &[Number(id), Signed(volume_type)]),
        VlCall::GetEntryByName { name } => put(out, &[Name(name)]),
        VlCall::ReplaceEntry {
            id,
            volume_type,
            entry,
            mask,
        } => {
            put(out, &[Number(id), Signed(volume_type)])?;
            put_given(out, entry)?;
            put(out, &[Number(mask)])
        }
        VlCall::SetLock {
            id,
            volume_type,
            operation,
        } => put(out, &[Number(id), Signed(volume_type), Number(operation)]),
        VlCall::ReleaseLock {
            id,
            volume_type,
            mask,
        } => put(out, &[Number(id), Signed(volume_type), Number(mask)]),
        VlCall::ListAttributes {
            after,
            host,
            partition,
            locked,
        } => put(
            out,
            &[
                Number(after),
                Number(host),
                Signed(partition),
                Truth(locked),
            ],
        ),
        VlCall::GetAddrs => Ok(()),
        VlCall::ChangeAddr { from, to } => put(out, &[Number(from), Number(to)]),
        VlCall::Probe => Ok(()),
    }
}
