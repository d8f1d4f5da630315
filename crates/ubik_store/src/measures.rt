//! What changes make too large, and whether they are made over an image as they stand.
ghost use Rattle.std.specs.Prelude.{◌≡◌, ◌+◌, ◌-◌, ◌≤◌, ◌↔◌, [], ◌∷◌, length, IsTrue, None, IfErr, IfOk, OnOk};
ghost use Rattle.ubik_types.specs.declared.images.Change.TheVariants as change;
ghost use Rattle.ubik_types.specs.Logged.{passed_limit, too_large};
ghost use Rattle.ubik_store.specs.Measures.{AreTooLarge, IsPassed, sum_after};
ghost use Rattle.ubik_store.specs.Redo.{changed_len, IsSeam, IsSeamless};

use crate::faults::StoreFault;
use ubik_types::{Change, MAX_CHANGES, MAX_IMAGE};

/// Refuses a put after which so many bytes are put in all, or which ends there, by the limit that it passes.
fn allow(sum: u64, end: u64) -> Result<(), StoreFault>
    ensures ok { OnOk result (passed_limit sum end ≡ None) }
    ensures fault { IfErr result (λ fault. IsPassed sum end fault) }
{
    if sum > MAX_CHANGES as u64 {
        Err(StoreFault::TooLarge { bytes: sum })
    } else if end > MAX_IMAGE as u64 {
        Err(StoreFault::TooLarge { bytes: end })
    } else {
        Ok(())
    }
}

/// How many bytes changes put, and how long the image is after them.
#[derive(Clone, Copy)]
pub(crate) struct Measures {
    pub(crate) sum: u32,
    pub(crate) len: u32,
}

impl Measures {
    /// After a put, and one of zero bytes for a gap before it.
    pub(crate) fn after_put(self, at: u32, bytes: &[u8]) -> Result<Measures, StoreFault>
        ensures fits { OnOk result (too_large self.sum self.len (change.Put at bytes.now ∷ []) ≡ None) }
        ensures sum { IfOk result (λ after. after.sum ≡ self.sum + (at - self.len) + length bytes.now) }
        ensures len { IfOk result (λ after. after.len ≡ changed_len self.len (change.Put at bytes.now)) }
        ensures fault { IfErr result (λ fault. AreTooLarge self.sum self.len (change.Put at bytes.now ∷ []) fault) }
    {
        let gap_end = self.len.max(at);
        let sum = u64::from(self.sum) + u64::from(gap_end - self.len);
        allow(sum, u64::from(gap_end))?;
        let end = u64::from(self.len).max(u64::from(at) + bytes.len() as u64);
        let sum = sum + bytes.len() as u64;
        allow(sum, end)?;
        Ok(Measures {
            sum: sum as u32,
            len: end as u32,
        })
    }

    /// After one change more.
    fn after(self, change: &Change) -> Result<Measures, StoreFault>
        ensures fits { OnOk result (too_large self.sum self.len (change.now ∷ []) ≡ None) }
        ensures sum { IfOk result (λ after. after.sum ≡ sum_after self.sum self.len change.now) }
        ensures len { IfOk result (λ after. after.len ≡ changed_len self.len change.now) }
        ensures fault { IfErr result (λ fault. AreTooLarge self.sum self.len (change.now ∷ []) fault) }
    {
        match change {
            Change::Put { at, bytes } => self.after_put(*at, bytes.as_slice()),
            Change::Cut { len } => Ok(Measures {
                sum: self.sum,
                len: self.len.min(*len),
            }),
        }
    }
}

/// Whether a change over an image of `len` bytes leaves no gap, and does not go past the end.
fn is_seam(len: u32, change: &Change) -> bool
    ensures { IsTrue result ↔ IsSeam len change.now }
{
    match change {
        Change::Put { at, .. } => *at <= len,
        Change::Cut { len: to } => *to <= len,
    }
}

/// Whether changes over an image of `len` bytes are made as they stand. Refuses them by what the first put that passes a limit makes too
/// large.
pub(crate) fn measure(len: u32, changes: &[Change]) -> Result<bool, StoreFault>
    ensures fits { OnOk result (too_large 0 len changes.now ≡ None) }
    ensures seamless { IfOk result (λ seamless. IsTrue seamless ↔ IsSeamless len changes.now) }
    ensures fault { IfErr result (λ fault. AreTooLarge 0 len changes.now fault) }
{
    let mut measures = Measures { sum: 0, len };
    let mut seamless = true;
    for change in changes {
        seamless &= is_seam(measures.len, change);
        measures = measures.after(change)?;
    }
    Ok(seamless)
}
