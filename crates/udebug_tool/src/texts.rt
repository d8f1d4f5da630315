//! What is printed of a server.
ghost use Rattle.std.specs.Prelude.{◌≡◌, IfOk, string_bytes};
ghost use Rattle.udebug_tool.specs.Texts.{clock_line, dotted, host_text, phase_word, seen_text, state_text, sync_line, version_line, voted_line};

use std::alloc::Global;
use ubik_calls::DebugIs;
use ubik_types::{Host, NoMemory, Phase};

/// What is printed of a host: what its server says of itself, or that no answer came.
pub(crate) fn seen_text(
    alloc: Global,
    host: Host,
    seen: &Option<DebugIs>,
) -> Result<String, NoMemory>
    ensures { IfOk result (λ text. string_bytes text ≡ seen_text host seen.now) }
{
    match seen {
        Some(is) => state_text(alloc, is),
        None => {
            let mut text = String::new(alloc);
            let host = dotted(alloc, host)?;
            writeln!(text, "host {host} no answer")?;
            Ok(text)
        }
    }
}

/// What a server says of itself, in four lines. Moments are in seconds.
fn state_text(alloc: Global, is: &DebugIs) -> Result<String, NoMemory>
    ensures { IfOk result (λ text. string_bytes text ≡ state_text is.entry.now) }
{
    let clock = clock_line(alloc, is)?;
    let version = version_line(alloc, is)?;
    let sync = sync_line(alloc, is)?;
    let voted = voted_line(alloc, is)?;
    let mut text = String::new(alloc);
    write!(text, "{clock}{version}{sync}{voted}")?;
    Ok(text)
}

/// The server and its clock.
#[tactic(auto, unfolding(crate::specs::Texts::clock_line))]
fn clock_line(alloc: Global, is: &DebugIs) -> Result<String, NoMemory>
    ensures { IfOk result (λ text. string_bytes text ≡ clock_line is.entry.now) }
{
    let host = dotted(alloc, is.host)?;
    let mut text = String::new(alloc);
    writeln!(text, "host {} clock {}", host, is.now)?;
    Ok(text)
}

/// The version of its database, its phase and the end of its lease.
#[tactic(auto, unfolding(crate::specs::Texts::version_line))]
fn version_line(alloc: Global, is: &DebugIs) -> Result<String, NoMemory>
    ensures { IfOk result (λ text. string_bytes text ≡ version_line is.entry.now) }
{
    let phase = phase_word(is.phase);
    let (epoch, counter) = (is.version.epoch, is.version.counter);
    let mut text = String::new(alloc);
    writeln!(
        text,
        "version {}.{} phase {} until {}",
        epoch, counter, phase, is.until
    )?;
    Ok(text)
}

/// The sync site that it heard.
#[tactic(auto, unfolding(crate::specs::Texts::sync_line))]
fn sync_line(alloc: Global, is: &DebugIs) -> Result<String, NoMemory>
    ensures { IfOk result (λ text. string_bytes text ≡ sync_line is.entry.now) }
{
    let sync = host_text(alloc, is.sync)?;
    let mut text = String::new(alloc);
    writeln!(text, "sync {sync}")?;
    Ok(text)
}

/// Whom it voted for, and when.
#[tactic(auto, unfolding(crate::specs::Texts::voted_line))]
fn voted_line(alloc: Global, is: &DebugIs) -> Result<String, NoMemory>
    ensures { IfOk result (λ text. string_bytes text ≡ voted_line is.entry.now) }
{
    let voted = host_text(alloc, is.voted)?;
    let mut text = String::new(alloc);
    writeln!(text, "voted {} at {}", voted, is.voted_at)?;
    Ok(text)
}

/// A host, which may be absent.
fn host_text(alloc: Global, host: Host) -> Result<String, NoMemory>
    ensures { IfOk result (λ text. string_bytes text ≡ host_text host) }
{
    if host.0 == 0 {
        let mut text = String::new(alloc);
        text.push_str("none")?;
        return Ok(text);
    }
    dotted(alloc, host)
}

/// A dotted address.
#[tactic(auto, unfolding(crate::specs::Texts::dotted))]
fn dotted(alloc: Global, host: Host) -> Result<String, NoMemory>
    ensures { IfOk result (λ text. string_bytes text ≡ dotted host) }
{
    let mut text = String::new(alloc);
    let (first, second) = (host.0 / 16_777_216, host.0 / 65_536 % 256);
    let (third, fourth) = (host.0 / 256 % 256, host.0 % 256);
    write!(text, "{}.{}.{}.{}", first, second, third, fourth)?;
    Ok(text)
}

/// The name of a phase.
fn phase_word(phase: Phase) -> &'static str
    ensures { result.now ≡ phase_word phase }
{
    match phase {
        Phase::None => "none",
        Phase::Poll => "poll",
        Phase::Fetch => "fetch",
        Phase::Relabel => "relabel",
        Phase::Send => "send",
        Phase::Ready => "ready",
    }
}
