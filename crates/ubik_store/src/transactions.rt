//! The changes of a transaction, from its beginning to its commit.
ghost use Rattle.std.specs.Prelude.{◌≡◌, ◌+◌, ◌-◌, ◌<◌, ◌≤◌, ◌^◌, ℕ, [], ◌∷◌, ◌++◌, length, min, Some, None, IsSome, IfOk, IfErr, IfSome, IsErrOf, OnOk, OnErr};
ghost use Rattle.ubik_types.specs.Logged.{logged, too_large};
ghost use Rattle.ubik_types.specs.declared.images.Change.TheVariants as change;
ghost use Rattle.ubik_store.specs.Store.{IsBegunOver, IsPutFault};

use crate::faults::StoreFault;
use crate::measures::Measures;
use std::alloc::Global;
use std::mem;
use ubik_types::{
    Bytes, Change, Changes, MAX_IMAGE, NoMemory, bytes_of, changes_new, changes_push,
};

/// Adds changes at the end: all of them or, for want of memory, none.
fn append(alloc: Global, list: &mut Changes, more: Changes) -> Result<(), NoMemory>
    ensures ok { OnOk result (list.new ≡ list.old ++ more) }
    ensures err { OnErr result (list.new ≡ list.old) }
{
    let mut all = mem::replace(list, changes_new(alloc)).into_vec();
    let mut added = more.into_vec();
    let ended = all.append(&mut added);
    *list = Changes::new(all);
    Ok(ended?)
}

/// The put of bytes over an image of `len` bytes, after one of zero bytes for a gap before it.
fn kept_put(alloc: Global, len: u32, at: u32, bytes: &[u8]) -> Result<Changes, NoMemory>
    ensures { IfOk result (λ changes. changes ≡ logged len (change.Put at bytes.now ∷ [])) }
{
    let mut changes = changes_new(alloc);
    if len < at {
        let zeros = vec![in alloc; 0u8; (at - len) as usize]?;
        changes_push(
            &mut changes,
            Change::Put {
                at: len,
                bytes: Bytes::new(zeros),
            },
        )?;
    }
    let bytes = bytes_of(alloc, bytes)?;
    changes_push(&mut changes, Change::Put { at, bytes })?;
    Ok(changes)
}

/// Changes that were begun over an image, none of which leaves a gap or goes past the longest image.
#[derive(Drop)]
pub(crate) struct Transaction {
    alloc: Global,
    /// The length of the image when they were begun, in bytes.
    start: u32,
    changes: Changes,
    /// How many bytes they put.
    sum: u32,
    /// The length of the image after them.
    len: u32,
}

impl Transaction {
    /// No change yet, over an image of this length.
    pub(crate) fn new(alloc: Global, len: u32) -> Transaction
        requires { len ≤ MAX_IMAGE }
        ensures begun { IsBegunOver len result }
        ensures changes { result.changes ≡ [] }
    {
        Transaction {
            alloc,
            start: len,
            changes: changes_new(alloc),
            sum: 0,
            len,
        }
    }

    /// The changes so far, in their order.
    pub(crate) fn changes(&self) -> &Changes
        ensures { result.now ≡ self.now.changes }
    {
        &self.changes
    }

    /// Adds the put of bytes at a position, after one of zero bytes for a gap before it. After a fault nothing is added.
    pub(crate) fn put(&mut self, at: u32, bytes: &[u8]) -> Result<(), StoreFault>
        requires begun { IsBegunOver self.old.start self.old }
        ensures begun { IsBegunOver self.old.start self.new }
        ensures changes { OnOk result (self.new.changes ≡ self.old.changes ++ logged self.old.len (change.Put at bytes.now ∷ [])) }
        ensures fits { OnOk result (too_large self.old.sum self.old.len (change.Put at bytes.now ∷ []) ≡ None) }
        ensures same { OnErr result (self.new.changes ≡ self.old.changes) }
        ensures fault { IfErr result (λ fault. IsPutFault self.old.sum self.old.len (change.Put at bytes.now) fault) }
    {
        let measures = Measures {
            sum: self.sum,
            len: self.len,
        };
        let after = measures.after_put(at, bytes)?;
        let put = kept_put(self.alloc, self.len, at, bytes)?;
        append(self.alloc, &mut self.changes, put)?;
        self.sum = after.sum;
        self.len = after.len;
        Ok(())
    }

    /// Adds a cut to a length, or to the length so far where that is less. After a fault nothing is added.
    pub(crate) fn truncate(&mut self, len: u32) -> Result<(), NoMemory>
        requires begun { IsBegunOver self.old.start self.old }
        ensures begun { IsBegunOver self.old.start self.new }
        ensures changes { OnOk result (self.new.changes ≡ self.old.changes ++ logged self.old.len (change.Cut len ∷ [])) }
        ensures same { OnErr result (self.new.changes ≡ self.old.changes) }
    {
        let len = self.len.min(len);
        changes_push(&mut self.changes, Change::Cut { len })?;
        self.len = len;
        Ok(())
    }
}
