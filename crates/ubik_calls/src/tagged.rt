//! Replies and what servers tell of themselves, read field by field.
ghost use Rattle.std.specs.Prelude.{◌≡◌, ◌<◌, IfOk};
ghost use Rattle.ubik_calls.specs.Fields.{Took};
ghost use Rattle.ubik_calls.specs.Reading.{Gets, applied_of, rule_at, no_quorum_at, not_sync_at, line_full_at, too_large_at, bad_record_at, reply_at, debug_is_at, reply_tag, behind_tag};
ghost use Rattle.ubik_calls.specs.WireGrammar.{is_unknown, debug_fields};

use crate::fields::{flag, host, long, number, phase, version};
use crate::frames::FrameFault;
use crate::replies::{DebugIs, Reply};
use ubik_types::Applied;
use xdr_base::XdrReader;

/// The reply of a tag, behind that tag. The answer to a call, which is the rest of its frame, has tag 0 and
/// is none of these.
pub(crate) fn reply(tag: u32, reader: &mut XdrReader) -> Result<Reply, FrameFault>
    ensures exact { Gets reader.new result (reply_at tag reader.old) }
    ensures found { IfOk result (λ reply. Took reader.old (behind_tag reply) reader.new) }
    ensures tag { IfOk result (λ reply. reply_tag reply ≡ tag) }
{
    match tag {
        1 => rule(reader),
        2 => no_quorum(reader),
        3 => not_sync(reader),
        4 => line_full(reader),
        5 => too_large(reader),
        6 => Ok(Reply::Malformed),
        7 => Ok(Reply::DiskFault),
        8 => Ok(Reply::NoMemory),
        9 => bad_record(reader),
        kind => Err(FrameFault::Kind { kind }),
    }
}

#[tactic(auto, unfolding(crate::specs::Reading::rule_at))]
fn rule(reader: &mut XdrReader) -> Result<Reply, FrameFault>
    ensures exact { Gets reader.new result (rule_at reader.old) }
    ensures found { IfOk result (λ reply. Took reader.old (behind_tag reply) reader.new) }
    ensures tag { IfOk result (λ reply. reply_tag reply ≡ 1) }
{
    Ok(Reply::Rule(number(reader)?))
}

#[tactic(auto, unfolding(crate::specs::Reading::no_quorum_at))]
fn no_quorum(reader: &mut XdrReader) -> Result<Reply, FrameFault>
    ensures exact { Gets reader.new result (no_quorum_at reader.old) }
    ensures found { IfOk result (λ reply. Took reader.old (behind_tag reply) reader.new) }
    ensures tag { IfOk result (λ reply. reply_tag reply ≡ 2) }
{
    let now = number(reader)?;
    let until = number(reader)?;
    let phase = phase(reader)?;
    let applied = applied_of(flag(reader)?);
    Ok(Reply::NoQuorum {
        now,
        until,
        phase,
        applied,
    })
}

#[tactic(auto, unfolding(crate::specs::Reading::not_sync_at))]
fn not_sync(reader: &mut XdrReader) -> Result<Reply, FrameFault>
    ensures exact { Gets reader.new result (not_sync_at reader.old) }
    ensures found { IfOk result (λ reply. Took reader.old (behind_tag reply) reader.new) }
    ensures tag { IfOk result (λ reply. reply_tag reply ≡ 3) }
{
    Ok(Reply::NotSync {
        host: host(reader)?,
        heard: number(reader)?,
    })
}

#[tactic(auto, unfolding(crate::specs::Reading::line_full_at))]
fn line_full(reader: &mut XdrReader) -> Result<Reply, FrameFault>
    ensures exact { Gets reader.new result (line_full_at reader.old) }
    ensures found { IfOk result (λ reply. Took reader.old (behind_tag reply) reader.new) }
    ensures tag { IfOk result (λ reply. reply_tag reply ≡ 4) }
{
    let holder = number(reader)?;
    Ok(Reply::LineFull { holder })
}

#[tactic(auto, unfolding(crate::specs::Reading::too_large_at))]
fn too_large(reader: &mut XdrReader) -> Result<Reply, FrameFault>
    ensures exact { Gets reader.new result (too_large_at reader.old) }
    ensures found { IfOk result (λ reply. Took reader.old (behind_tag reply) reader.new) }
    ensures tag { IfOk result (λ reply. reply_tag reply ≡ 5) }
{
    let bytes = long(reader)?;
    Ok(Reply::TooLarge { bytes })
}

#[tactic(auto, unfolding(crate::specs::Reading::bad_record_at))]
fn bad_record(reader: &mut XdrReader) -> Result<Reply, FrameFault>
    ensures exact { Gets reader.new result (bad_record_at reader.old) }
    ensures found { IfOk result (λ reply. Took reader.old (behind_tag reply) reader.new) }
    ensures tag { IfOk result (λ reply. reply_tag reply ≡ 9) }
{
    let at = number(reader)?;
    Ok(Reply::BadRecord { at })
}

fn applied_of(unknown: bool) -> Applied
    ensures exact { result ≡ applied_of unknown }
    ensures back { is_unknown result ≡ unknown }
{
    if unknown {
        Applied::Unknown
    } else {
        Applied::No
    }
}

#[tactic(auto, unfolding(crate::specs::Reading::debug_is_at))]
pub(crate) fn debug_is(reader: &mut XdrReader) -> Result<DebugIs, FrameFault>
    ensures exact { Gets reader.new result (debug_is_at reader.old) }
    ensures found { IfOk result (λ told. Took reader.old (debug_fields told) reader.new) }
{
    Ok(DebugIs {
        host: host(reader)?,
        now: number(reader)?,
        version: version(reader)?,
        phase: phase(reader)?,
        until: number(reader)?,
        sync: host(reader)?,
        voted: host(reader)?,
        voted_at: number(reader)?,
    })
}
