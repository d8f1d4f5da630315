//! Reads the records of a log from the front of some bytes. No reader takes memory.
ghost use Rattle.std.specs.Prelude.{◌≡◌, ◌≢◌, ℕ, ◌+◌, ◌≤◌, List, ◌++◌, length, IfSome, IfNone, IfOk};
ghost use Rattle.ubik_types.specs.declared.images.Change.{Change as ChangeSeen};
ghost use Rattle.ubik_types.specs.declared.versions.Version.{Version as VersionSeen};
ghost use Rattle.ubik_types.specs.Version.{IsVersion};
ghost use Rattle.ubik_log.specs.LogGrammar.{field};
ghost use Rattle.ubik_log.specs.Reading.{change_of, BeginsWithChange};
ghost use Rattle.ubik_log.specs.Records.{end_record};

use crate::opcodes::{FILE, LOGDATA, LOGEND, LOGTRUNCATE};
use std::alloc::Global;
use ubik_types::{Change, MAX_COUNTER, MAX_IMAGE, NoMemory, Version, bytes_of, first_word};

/// A change whose bytes lie in the log.
#[derive(Clone, Copy)]
pub enum Edit<'a> {
    /// Lays the bytes at a position.
    Lay { at: u32, bytes: &'a [u8] },
    /// Keeps the first `len` bytes.
    Keep { len: u32 },
}

impl Edit<'_> {
    /// The change, with bytes of its own.
    pub fn to_change(&self, alloc: Global) -> Result<Change, NoMemory>
        ensures { IfOk result (λ change. change ≡ change_of self.now) }
    {
        Ok(match self {
            Edit::Lay { at, bytes } => Change::Put {
                at: *at,
                bytes: bytes_of(alloc, bytes)?,
            },
            Edit::Keep { len } => Change::Cut { len: *len },
        })
    }
}

/// The bytes behind a field that is this number; none where they do not begin with it.
pub fn behind(bytes: &[u8], expected: u32) -> Option<&[u8]>
    ensures found { IfSome result (λ rest. bytes.now ≡ field expected ++ rest.now) }
    ensures none { IfNone result ((after : List ℕ) → bytes.now ≢ field expected ++ after) }
{
    let (found, rest) = first_word(bytes)?;
    (found == expected).then_some(rest)
}

/// The change whose fields behind LOGDATA stand first, and the bytes behind it.
fn lay_at(fields: &[u8]) -> Option<(Edit<'_>, &[u8])>
    ensures found { IfSome result (λ r. BeginsWithChange (field 103 ++ fields.now) (change_of r.0) r.1.now) }
    ensures none { IfNone result ((at : ℕ) (bytes after : List ℕ) → at + length bytes ≤ MAX_IMAGE
        → fields.now ≢ field 0 ++ (field at ++ (field (length bytes) ++ (bytes ++ after)))) }
{
    let fields = behind(fields, FILE)?;
    let (at, fields) = first_word(fields)?;
    let (len, fields) = first_word(fields)?;
    let len = len as usize;
    let end = at as usize + len;
    if end > MAX_IMAGE {
        return None;
    }
    let (bytes, rest) = fields.split_at_checked(len)?;
    Some((Edit::Lay { at, bytes }, rest))
}

/// The change whose fields behind LOGTRUNCATE stand first, and the bytes behind it.
fn keep_at(fields: &[u8]) -> Option<(Edit<'_>, &[u8])>
    ensures found { IfSome result (λ r. BeginsWithChange (field 104 ++ fields.now) (change_of r.0) r.1.now) }
    ensures none { IfNone result ((len : ℕ) (after : List ℕ) → len ≤ MAX_IMAGE → fields.now ≢ field 0 ++ (field len ++ after)) }
{
    let fields = behind(fields, FILE)?;
    let (len, rest) = first_word(fields)?;
    if len as usize > MAX_IMAGE {
        return None;
    }
    Some((Edit::Keep { len }, rest))
}

/// The change whose record stands first, and the bytes behind it; none where no such record stands there.
pub fn edit_at(bytes: &[u8]) -> Option<(Edit<'_>, &[u8])>
    ensures found { IfSome result (λ r. BeginsWithChange bytes.now (change_of r.0) r.1.now) }
    ensures none { IfNone result ((change : ChangeSeen) (after : List ℕ) → ¬ BeginsWithChange bytes.now change after) }
{
    let (opcode, fields) = first_word(bytes)?;
    match opcode {
        LOGDATA => lay_at(fields),
        LOGTRUNCATE => keep_at(fields),
        _ => None,
    }
}

/// The version of the end of a log that these bytes are; none where they are no end of a log.
pub fn end_at(bytes: &[u8]) -> Option<Version>
    ensures found { IfSome result (λ version. IsVersion version × (bytes.now ≡ end_record version)) }
    ensures none { IfNone result ((version : VersionSeen) → IsVersion version → bytes.now ≢ end_record version) }
{
    let fields = behind(bytes, LOGEND)?;
    let (epoch, fields) = first_word(fields)?;
    let (counter, rest) = first_word(fields)?;
    if epoch > MAX_COUNTER || counter > MAX_COUNTER || !rest.is_empty() {
        return None;
    }
    Some(Version { epoch, counter })
}
