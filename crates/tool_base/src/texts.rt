//! Texts in parts and columns.
ghost use Rattle.std.specs.Prelude.{◌≡◌, ◌++◌, ◌-◌, IfOk, length};
ghost use Rattle.std.specs.Fmt.{decimal, signed_decimal};
ghost use Rattle.std.specs.List.{flat_map};
ghost use Rattle.std.specs.String.{string_bytes};
ghost use Rattle.tool_base.specs.Texts.{at_left, at_right};

use std::alloc::Global;
use ubik_types::{Bytes, NoMemory};

/// The parts, one behind the other.
pub fn joined(alloc: Global, parts: &[&[u8]]) -> Result<Bytes, NoMemory>
    ensures { IfOk result (λ bytes. bytes ≡ flat_map (λ part. part.now) parts.now) }
{
    let mut text = Vec::new(alloc);
    for part in parts {
        text.extend_from_slice(part)?;
    }
    Ok(Bytes::new(text))
}

/// A text at the left of a column of so many places; a longer one stays whole.
pub fn at_left(alloc: Global, width: usize, text: &[u8]) -> Result<Bytes, NoMemory>
    ensures { IfOk result (λ bytes. bytes ≡ at_left width text.now) }
{
    let mut column = text.to_vec(alloc)?;
    let blanks = vec![in alloc; b' '; width.saturating_sub(text.len())]?;
    column.extend_from_slice(&blanks)?;
    Ok(Bytes::new(column))
}

/// A text at the right of a column of so many places; a longer one stays whole.
pub fn at_right(alloc: Global, width: usize, text: &[u8]) -> Result<Bytes, NoMemory>
    ensures { IfOk result (λ bytes. bytes ≡ at_right width text.now) }
{
    let mut column = vec![in alloc; b' '; width.saturating_sub(text.len())]?;
    column.extend_from_slice(text)?;
    Ok(Bytes::new(column))
}

/// A number in decimal.
pub fn number_text(alloc: Global, number: u32) -> Result<String, NoMemory>
    ensures { IfOk result (λ text. string_bytes text ≡ decimal number) }
{
    let mut text = String::new(alloc);
    write!(text, "{}", number)?;
    Ok(text)
}

/// A number with a sign in decimal.
pub fn signed_text(alloc: Global, number: i32) -> Result<String, NoMemory>
    ensures { IfOk result (λ text. string_bytes text ≡ signed_decimal number) }
{
    let mut text = String::new(alloc);
    write!(text, "{}", number)?;
    Ok(text)
}
