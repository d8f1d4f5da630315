//! Fields of frames, read from left to right.
ghost use Rattle.std.specs.Prelude.{◌≡◌, ◌≤◌, ◌∷◌, [], IfOk, IsOk, length, drop};
ghost use Rattle.ubik_calls.specs.Fields.{Number, Long, Truth, VersionOf, PhaseOf, Piece, Took, phase_number};
ghost use Rattle.ubik_calls.specs.Reading.{Gets, Gives, number_at, long_at, flag_at, piece_at, version_word_at, version_at, phase_of, phase_at, host_at, end_at};

use crate::frames::FrameFault;
use crate::packets::MAX_PIECE;
use std::alloc::Global;
use ubik_types::{Bytes, Host, MAX_COUNTER, Phase, Version, bytes_of};
use xdr_base::XdrReader;

#[tactic(auto, unfolding(crate::specs::Reading::number_at, crate::specs::Fields::spelled, crate::specs::Fields::field_spelling))]
pub(crate) fn number(reader: &mut XdrReader) -> Result<u32, FrameFault>
    ensures exact { Gets reader.new result (number_at reader.old) }
    ensures found { IfOk result (λ n. Took reader.old (Number n ∷ []) reader.new) }
    ensures some { IsOk result → 4 ≤ length reader.old.rest }
    ensures rest { IfOk result (λ _. reader.new.rest ≡ drop 4 reader.old.rest) }
{
    Ok(reader.get_u32()?)
}

#[tactic(auto, unfolding(crate::specs::Reading::flag_at, crate::specs::Fields::spelled, crate::specs::Fields::field_spelling))]
pub(crate) fn flag(reader: &mut XdrReader) -> Result<bool, FrameFault>
    ensures exact { Gets reader.new result (flag_at reader.old) }
    ensures found { IfOk result (λ b. Took reader.old (Truth b ∷ []) reader.new) }
{
    Ok(reader.get_bool()?)
}

/// A piece of at most 8,192 bytes.
#[tactic(auto, unfolding(crate::specs::Reading::piece_at, crate::specs::Fields::spelled, crate::specs::Fields::field_spelling))]
pub(crate) fn piece(alloc: Global, reader: &mut XdrReader) -> Result<Bytes, FrameFault>
    ensures exact { Gets reader.new result (piece_at reader.old) }
    ensures found { IfOk result (λ bytes. Took reader.old (Piece bytes ∷ []) reader.new) }
{
    let bytes = reader.get_bytes(MAX_PIECE as u32)?;
    Ok(bytes_of(alloc, bytes)?)
}

/// A number of 64 bits, the high word first.
#[tactic(auto, unfolding(crate::specs::Reading::long_at, crate::specs::Fields::spelled, crate::specs::Fields::field_spelling))]
pub(crate) fn long(reader: &mut XdrReader) -> Result<u64, FrameFault>
    ensures exact { Gets reader.new result (long_at reader.old) }
    ensures found { IfOk result (λ n. Took reader.old (Long n ∷ []) reader.new) }
{
    let high = number(reader)?;
    let low = number(reader)?;
    Ok(u64::from(high) * 4_294_967_296 + u64::from(low))
}

/// One word of a version, which is below 2^31.
#[tactic(auto, unfolding(crate::specs::Reading::version_word_at))]
fn version_word(reader: &mut XdrReader) -> Result<u32, FrameFault>
    ensures exact { Gets reader.new result (version_word_at reader.old) }
    ensures found { IfOk result (λ n. Took reader.old (Number n ∷ []) reader.new) }
    ensures bounded { IfOk result (λ n. n ≤ MAX_COUNTER) }
{
    let value = number(reader)?;
    if value > MAX_COUNTER {
        return Err(FrameFault::Version { value });
    }
    Ok(value)
}

#[tactic(auto, unfolding(crate::specs::Reading::version_at, crate::specs::Fields::spelled, crate::specs::Fields::field_spelling))]
pub(crate) fn version(reader: &mut XdrReader) -> Result<Version, FrameFault>
    ensures exact { Gets reader.new result (version_at reader.old) }
    ensures found { IfOk result (λ v. Took reader.old (VersionOf v ∷ []) reader.new) }
{
    let epoch = version_word(reader)?;
    let counter = version_word(reader)?;
    Ok(Version { epoch, counter })
}

#[tactic(auto, unfolding(crate::specs::Reading::phase_at, crate::specs::Fields::spelled, crate::specs::Fields::field_spelling))]
pub(crate) fn phase(reader: &mut XdrReader) -> Result<Phase, FrameFault>
    ensures exact { Gets reader.new result (phase_at reader.old) }
    ensures found { IfOk result (λ p. Took reader.old (PhaseOf p ∷ []) reader.new) }
{
    let kind = number(reader)?;
    phase_numbered(kind)
}

fn phase_numbered(kind: u32) -> Result<Phase, FrameFault>
    ensures exact { result ≡ phase_of kind }
    ensures found { IfOk result (λ p. kind ≡ phase_number p) }
{
    match kind {
        0 => Ok(Phase::None),
        1 => Ok(Phase::Poll),
        2 => Ok(Phase::Fetch),
        3 => Ok(Phase::Relabel),
        4 => Ok(Phase::Send),
        5 => Ok(Phase::Ready),
        _ => Err(FrameFault::Kind { kind }),
    }
}

#[tactic(auto, unfolding(crate::specs::Reading::host_at))]
pub(crate) fn host(reader: &mut XdrReader) -> Result<Host, FrameFault>
    ensures exact { Gets reader.new result (host_at reader.old) }
    ensures found { IfOk result (λ host. Took reader.old (Number host.0 ∷ []) reader.new) }
{
    Ok(Host(number(reader)?))
}

/// That nothing is left.
#[tactic(auto, unfolding(crate::specs::Reading::end_at))]
pub(crate) fn end(reader: &XdrReader) -> Result<(), FrameFault>
    ensures exact { Gives result (end_at reader.now) }
    ensures done { IfOk result (λ _. reader.now.rest ≡ []) }
{
    Ok(reader.end()?)
}
