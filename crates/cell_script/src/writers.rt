//! Writing a text whole.
ghost use Rattle.std.specs.Prelude.{◌≡◌, ◌<◌, ◌≤◌, ℕ, List, [], IsOk, IsErr, IfSome};
ghost use Rattle.disk_base.specs.Count.{HasCause};
ghost use Rattle.cell_script.specs.Write.{WritesWhole};

use disk_base::{Sink, Wrote};
use thiserror::Error;

/// A write to a sink failed.
#[derive(Clone, Copy, Debug, PartialEq, Eq, Error)]
#[error("write fault")]
pub struct WriteFault;

/// Appends all of the bytes to a sink. After an error it holds a front of them.
pub fn write_whole<K: Sink>(out: &mut K, bytes: &[u8]) -> Result<(), WriteFault>
    ensures told { IfSome (K.written out.old) (λ before. WritesWhole result before (K.written out.new) bytes.now) }
    ensures empty { bytes.now ≡ [] → IsOk result × (out.new ≡ out.old) }
    ensures cause { HasCause (K.faults out.old) (K.faults out.new) (IsErr result) }
{
    let mut done = 0;
    while done < bytes.len() {
        match out.write(&bytes[done..]) {
            Wrote::Bytes(count) => done += count,
            Wrote::Failed => return Err(WriteFault),
        }
    }
    Ok(())
}
