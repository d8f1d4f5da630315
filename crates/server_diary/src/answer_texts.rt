//! Answers in words, as a trace prints them, each word behind a blank.

use pt_calls::PtAnswer;
use server_texts::Database;
use std::alloc::Global;
use ubik_calls::Reply;
use ubik_types::{Applied, NoMemory, Phase};
use vl_calls::VlAnswer;

/// What a writing call was answered.
pub(crate) fn answer_text(
    alloc: Global,
    database: Database,
    call: &[u8],
    reply: &Reply,
) -> Result<String, NoMemory> {
    let mut text = String::new(alloc);
    match reply {
        Reply::Ok(answer) => {
            text.push_str(" ok")?;
            tell_done(&mut text, database, call, answer.as_slice())?;
        }
        Reply::Rule(number) => write!(text, " rule {number}")?,
        Reply::NoQuorum {
            until,
            phase,
            applied,
            ..
        } => {
            let phase = phase_word(*phase);
            let applied = applied_word(*applied);
            write!(text, " noquorum {until} {phase} {applied}")?;
        }
        Reply::NotSync { host, .. } => write!(text, " notsync {host}")?,
        Reply::LineFull { holder } => write!(text, " linefull {holder}")?,
        Reply::TooLarge { bytes } => write!(text, " toolarge {bytes}")?,
        Reply::Malformed => text.push_str(" malformed")?,
        Reply::DiskFault => text.push_str(" diskfault")?,
        Reply::BadRecord { at } => write!(text, " badrecord {at}")?,
        Reply::NoMemory => text.push_str(" nomemory")?,
    }
    Ok(text)
}

/// Adds the id with which a writing call that took place was answered, if there is one.
fn tell_done(
    text: &mut String,
    database: Database,
    call: &[u8],
    answer: &[u8],
) -> Result<(), NoMemory> {
    match database {
        Database::Location => tell_location(text, call, answer),
        Database::Protection => tell_protection(text, call, answer),
    }
}

fn tell_location(text: &mut String, call: &[u8], answer: &[u8]) -> Result<(), NoMemory> {
    let Some(kind) = vl_calls::kind_of(call) else {
        return Ok(());
    };
    let read = vl_calls::read_answer(*text.allocator(), kind, answer)?;
    if let Some(VlAnswer::Id(id)) = read {
        write!(text, " {id}")?;
    }
    Ok(())
}

fn tell_protection(text: &mut String, call: &[u8], answer: &[u8]) -> Result<(), NoMemory> {
    let Some(kind) = pt_calls::kind_of(call) else {
        return Ok(());
    };
    let read = pt_calls::read_answer(*text.allocator(), kind, answer)?;
    if let Some(PtAnswer::Id(id)) = read {
        write!(text, " {id}")?;
    }
    Ok(())
}

fn phase_word(phase: Phase) -> &'static str {
    match phase {
        Phase::None => "none",
        Phase::Poll => "poll",
        Phase::Fetch => "fetch",
        Phase::Relabel => "relabel",
        Phase::Send => "send",
        Phase::Ready => "ready",
    }
}

fn applied_word(applied: Applied) -> &'static str {
    match applied {
        Applied::No => "no",
        Applied::Unknown => "unknown",
    }
}
