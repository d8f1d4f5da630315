//! What undoes the changing calls of a file since its last sync.
ghost use Rattle.std.specs.Prelude.{◌≡◌, ◌+◌, ◌≤◌, length, take, drop, All, IfOk, vec_capacity};
ghost use Rattle.disk_base.specs.Files.{laid};
ghost use Rattle.disk_base.specs.Undos.{lost_to, undone, all_undone};

use crate::touches::Touch;
use std::alloc::Global;
use ubik_types::NoMemory;

/// A changing call, and what it took from the file. It is as long as what the call changes.
#[derive(Drop)]
pub(crate) struct Undo {
    touch: Touch,
    /// How long the file was.
    was: usize,
    /// The bytes that the call laid others over, or cut off.
    lost: Vec<u8>,
}

impl Undo {
    /// Before so many bytes are laid over a file, from a position on.
    pub(crate) fn of_write(
        alloc: Global,
        file: &[u8],
        at: usize,
        len: usize,
    ) -> Result<Undo, NoMemory>
        requires { at ≤ length file.now }
        ensures touch { IfOk result (λ undo. undo.touch ≡ Touch.Wrote at len) }
        ensures was { IfOk result (λ undo. undo.was ≡ length file.now) }
        ensures lost { IfOk result (λ undo. undo.lost.items ≡ take len (drop at file.now)) }
    {
        let over = len.min(file.len() - at);
        Ok(Undo {
            touch: Touch::Wrote { at, len },
            was: file.len(),
            lost: file[at..at + over].to_vec(alloc)?,
        })
    }

    /// Before a file is cut to a length.
    pub(crate) fn of_cut(alloc: Global, file: &[u8], len: usize) -> Result<Undo, NoMemory>
        requires { len ≤ length file.now }
        ensures touch { IfOk result (λ undo. undo.touch ≡ Touch.Cut len) }
        ensures was { IfOk result (λ undo. undo.was ≡ length file.now) }
        ensures lost { IfOk result (λ undo. undo.lost.items ≡ drop len file.now) }
    {
        Ok(Undo {
            touch: Touch::Cut { len },
            was: file.len(),
            lost: file[len..].to_vec(alloc)?,
        })
    }

    /// The call that is undone.
    pub(crate) fn touch(&self) -> Touch
        ensures { result ≡ self.now.touch }
    {
        self.touch
    }

    /// Makes a file what it was before the call. Its memory is there, so it takes none.
    fn undo(&self, file: &mut Vec<u8>)
        requires { lost_to self.now ≤ vec_capacity file.old }
        ensures bytes { file.new.items ≡ undone self.now file.old.items }
        ensures capacity { vec_capacity file.old ≤ vec_capacity file.new }
    {
        let start = match self.touch {
            Touch::Wrote { at, .. } => at,
            Touch::Cut { len } => len,
        };
        let at = start.min(file.len());
        lay(file, at, &self.lost);
        file.truncate(self.was);
    }
}

/// Makes a file what it was before these calls, of which the newest is the last. It takes no memory.
pub(crate) fn undo_all(undos: &[Undo], file: &mut Vec<u8>)
    requires { All (λ undo. lost_to undo ≤ vec_capacity file.old) undos.now }
    ensures bytes { file.new.items ≡ all_undone undos.now file.old.items }
    ensures capacity { vec_capacity file.old ≤ vec_capacity file.new }
{
    for at in (0..undos.len()).rev() {
        undos[at].undo(file);
    }
}

/// Lays bytes over a file from a position on. It takes no memory: there is room for them.
pub(crate) fn lay(file: &mut Vec<u8>, at: usize, bytes: &[u8])
    requires begins { at ≤ length file.old.items }
    requires fits { at + length bytes.now ≤ vec_capacity file.old }
    ensures bytes { file.new.items ≡ laid file.old.items at bytes.now }
    ensures capacity { vec_capacity file.old ≤ vec_capacity file.new }
{
    let (over, past) = bytes.split_at(bytes.len().min(file.len() - at));
    // There is room for them, so it needs no memory.
    let _ = file.extend_from_slice(past);
    file[at..at + over.len()].copy_from_slice(over);
}
