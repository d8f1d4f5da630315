//! The changes of a log as they are made over an image: without a gap, and no cut past the end.
ghost use Rattle.std.specs.Prelude.{◌≡◌, ◌<◌, ◌≤◌, [], ◌∷◌, ◌++◌, All, IfOk, OnOk};
ghost use Rattle.ubik_types.specs.declared.images.Change.TheVariants as change;
ghost use Rattle.ubik_types.specs.Logged.{gap_before, logged};
ghost use Rattle.ubik_log.specs.LogGrammar.{IsWithinImage};
ghost use Rattle.ubik_store.specs.Redo.{Ends, changed_len};

use page_file::MAX_DATABASE_LEN;
use std::alloc::Global;
use ubik_types::{Bytes, Change, Changes, NoMemory, bytes_of, changes_new, changes_push};

/// Adds a put of zero bytes from the end of an image of `len` bytes up to a position past it.
fn push_gap(alloc: Global, made: &mut Changes, len: u32, at: u32) -> Result<(), NoMemory>
    requires { len < at }
    ensures { OnOk result (made.new ≡ made.old ++ gap_before len at) }
{
    let zeros = vec![in alloc; 0u8; (at - len) as usize]?;
    let bytes = Bytes::new(zeros);
    changes_push(made, Change::Put { at: len, bytes })
}

/// A copy of a change.
fn copy_of(alloc: Global, change: &Change) -> Result<Change, NoMemory>
    ensures { IfOk result (λ copy. copy ≡ change.now) }
{
    match change {
        Change::Put { at, bytes } => Ok(Change::Put {
            at: *at,
            bytes: bytes_of(alloc, bytes.as_slice())?,
        }),
        Change::Cut { len } => Ok(Change::Cut { len: *len }),
    }
}

/// Adds a put behind one that fills the gap before it, or a cut to no more than the length. Gives the length after it.
fn push_made(alloc: Global, made: &mut Changes, len: u32, change: Change) -> Result<u32, NoMemory>
    requires ends { Ends change MAX_DATABASE_LEN }
    ensures made { OnOk result (made.new ≡ made.old ++ logged len (change ∷ [])) }
    ensures len { IfOk result (λ after. after ≡ changed_len len change) }
{
    match change {
        Change::Put { at, bytes } => {
            let end = at + bytes.as_slice().len() as u32;
            if len < at {
                push_gap(alloc, made, len, at)?;
            }
            changes_push(made, Change::Put { at, bytes })?;
            Ok(len.max(end))
        }
        Change::Cut { len: to } => {
            let to = to.min(len);
            changes_push(made, Change::Cut { len: to })?;
            Ok(to)
        }
    }
}

/// The changes of a log as they are made over an image of `len` bytes.
pub(crate) fn as_made(alloc: Global, len: u32, told: Changes) -> Result<Changes, NoMemory>
    requires within { All IsWithinImage told }
    ensures { IfOk result (λ made. made ≡ logged len told) }
{
    let mut made = changes_new(alloc);
    let mut len = len;
    for change in told.into_vec() {
        len = push_made(alloc, &mut made, len, change)?;
    }
    Ok(made)
}

/// A copy of changes as they are made over an image of `len` bytes.
pub(crate) fn copy_as_made(alloc: Global, len: u32, changes: &[Change]) -> Result<Changes, NoMemory>
    requires ends { All (λ change. Ends change MAX_DATABASE_LEN) changes.now }
    ensures { IfOk result (λ made. made ≡ logged len changes.now) }
{
    let mut made = changes_new(alloc);
    let mut len = len;
    for change in changes {
        let copy = copy_of(alloc, change)?;
        len = push_made(alloc, &mut made, len, copy)?;
    }
    Ok(made)
}
