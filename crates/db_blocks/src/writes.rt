//! Words and fields of a block, written one behind the other.
ghost use Rattle.std.specs.Prelude.{◌≡◌, ◌++◌, OnOk};
ghost use Rattle.db_blocks.specs.Bytes.{filled, words, zeros};

use std::alloc::AllocError;

/// Writes so many zero bytes at the end.
#[tactic(auto, unfolding(crate::specs::Bytes::zeros))]
pub fn push_zeros(out: &mut Vec<u8>, count: usize) -> Result<(), AllocError>
    ensures { OnOk result (out.new.items ≡ out.old.items ++ zeros count) }
{
    for _ in 0..count {
        out.push(0)?;
    }
    Ok(())
}

/// Writes numbers at the end, as words.
#[tactic(auto, unfolding(crate::specs::Bytes::words))]
pub fn push_words(out: &mut Vec<u8>, numbers: &[u32]) -> Result<(), AllocError>
    ensures { OnOk result (out.new.items ≡ out.old.items ++ words numbers.now) }
{
    for number in numbers {
        out.extend_from_slice(&number.to_be_bytes())?;
    }
    Ok(())
}

/// Writes bytes at the end, in a field of this length.
pub fn push_filled(out: &mut Vec<u8>, len: usize, bytes: &[u8]) -> Result<(), AllocError>
    ensures { OnOk result (out.new.items ≡ out.old.items ++ filled len bytes.now) }
{
    out.extend_from_slice(bytes)?;
    push_zeros(out, len.saturating_sub(bytes.len()))?;
    Ok(())
}
