//! Calls on a poll with its phase, its holders and its text.
ghost use Rattle.std.specs.Prelude.{◌≤◌};

use crate::words::{
    marks_text, number_text, server_in, truth_in, truth_word, version_in, version_text, word_text,
};
use session_rows::{Fault, bytes_in, number_in, told_bytes};
use std::alloc::Global;
use ubik_recovery::{CollectedText, Recovery, TextSource};
use ubik_types::{Phase, Version};

/// The phases and their words.
const PHASES: [(&str, Phase); 6] = [
    ("none", Phase::None),
    ("poll", Phase::Poll),
    ("fetch", Phase::Fetch),
    ("relabel", Phase::Relabel),
    ("send", Phase::Send),
    ("ready", Phase::Ready),
];

fn phase_in(word: &str) -> Result<Phase, Fault> {
    for (name, phase) in PHASES {
        if name == word {
            return Ok(phase);
        }
    }
    Err(Fault::Form)
}

fn phase_word(phase: Phase) -> &'static str {
    for (name, known) in PHASES {
        if known == phase {
            return name;
        }
    }
    "another"
}

/// The bytes of several words.
fn bytes_of(alloc: Global, words: &[&str]) -> Result<Vec<u8>, Fault> {
    let mut bytes = Vec::new(alloc);
    for word in words {
        bytes.extend_from_slice(&bytes_in(alloc, word)?)?;
    }
    Ok(bytes)
}

/// A piece of a text: its source, offset and bytes, from `SERVER VERSION TOTAL OFFSET` and its bytes.
fn piece_in(
    alloc: Global,
    [server, version, total, offset]: [&str; 4],
    bytes: &[&str],
) -> Result<(TextSource, u32, Vec<u8>), Fault> {
    let source = TextSource {
        server: server_in(server)?,
        version: version_in(version)?,
        total: number_in(total)?,
    };
    Ok((source, number_in(offset)?, bytes_of(alloc, bytes)?))
}

/// Makes a call that tells something of the answers to a poll.
pub fn call_poll(alloc: Global, poll: &mut Recovery, words: &[&str]) -> Result<String, Fault> {
    match words {
        ["best"] => best_text(alloc, poll),
        ["of", server] => { answer_text(alloc, poll.answered_version(number_in(server)? as usize)) }
        ["answered"] => marks_text(alloc, &poll.answered()),
        ["holders"] => marks_text(alloc, &poll.holders()),
        ["old"] => version_text(alloc, poll.old()),
        ["moment"] => number_text(alloc, Some(poll.poll())),
        _ => call_text(alloc, poll, words),
    }
}

fn best_text(alloc: Global, poll: &Recovery) -> Result<String, Fault> {
    let (version, server) = poll.best();
    let version = version_text(alloc, version)?;
    Ok(format!(in alloc; "{version} of {server}")?)
}

fn answer_text(alloc: Global, answer: Option<Version>) -> Result<String, Fault> {
    match answer {
        Some(version) => version_text(alloc, version),
        None => word_text(alloc, "none"),
    }
}

/// Makes a call that tells something of the text of a poll.
fn call_text(alloc: Global, poll: &mut Recovery, words: &[&str]) -> Result<String, Fault> {
    match words {
        ["source"] => source_text(alloc, poll.received_of()),
        ["text", wanted @ ..] => received_text(alloc, poll, wanted),
        ["take"] => taken_text(alloc, poll.take_text()),
        _ => word_text(alloc, step(alloc, poll, words)?),
    }
}

fn source_text(alloc: Global, source: Option<TextSource>) -> Result<String, Fault> {
    match source {
        Some(of) => {
            let version = version_text(alloc, of.version)?;
            Ok(format!(in alloc; "{} {version} {}", of.server, of.total)?)
        }
        None => word_text(alloc, "none"),
    }
}

/// How many bytes a text has that was given out.
fn taken_text(alloc: Global, taken: Option<CollectedText>) -> Result<String, Fault> {
    let bytes = match &taken {
        Some(own) => own.text.len(),
        None => 0,
    };
    Ok(format!(in alloc; "{bytes} bytes")?)
}

/// Whether the bytes received are those wanted, or which they are.
fn received_text(alloc: Global, poll: &Recovery, wanted: &[&str]) -> Result<String, Fault> {
    if poll.received() == bytes_of(alloc, wanted)?.as_slice() {
        return word_text(alloc, "same");
    }
    told_bytes(alloc, poll.received())
}

/// Makes a call that changes the poll, or tells its phase.
fn step(alloc: Global, poll: &mut Recovery, words: &[&str]) -> Result<&'static str, Fault> {
    match words {
        ["cell", servers] => *poll = Recovery::in_cell(alloc, server_in(servers)?),
        ["begin", now, me, own] => poll.begin(number_in(now)?, server_in(me)?, version_in(own)?),
        ["phase"] => return Ok(phase_word(poll.phase())),
        ["phase", phase, me] => poll.set_phase(phase_in(phase)?, server_in(me)?),
        ["drop"] => poll.drop_all(),
        _ => return take_answer(alloc, poll, words),
    }
    Ok("done")
}

/// Makes a call on what a server answered or holds.
fn take_answer(alloc: Global, poll: &mut Recovery, words: &[&str]) -> Result<&'static str, Fault> {
    match words {
        ["answer", from, version] => poll.answer(server_in(from)?, version_in(version)?),
        ["hold", from] => poll.hold(server_in(from)?),
        ["alone", me] => poll.hold_alone(server_in(me)?),
        ["old", version] => poll.keep_old(version_in(version)?),
        _ => return take_text(alloc, poll, words),
    }
    Ok("done")
}

/// Makes a call on a piece of a text, or on a whole one.
fn take_text(alloc: Global, poll: &mut Recovery, words: &[&str]) -> Result<&'static str, Fault> {
    match words {
        [
            "takes",
            may_begin,
            server,
            version,
            total,
            offset,
            bytes @ ..,
        ] => {
            let may_begin = truth_in(may_begin)?;
            let (source, offset, bytes) = piece_in(alloc, [server, version, total, offset], bytes)?;
            let takes = poll.takes_piece(may_begin, &source, offset, &bytes);
            Ok(truth_word(takes))
        }
        ["piece", server, version, total, offset, bytes @ ..] => {
            take_piece(alloc, poll, [server, version, total, offset], bytes)
        }
        ["fetched", total, bytes @ ..] => fetch(alloc, poll, total, bytes),
        _ => Err(Fault::Form),
    }
}

/// Takes a piece, if it may, and tells whether the text is whole then.
fn take_piece(
    alloc: Global,
    poll: &mut Recovery,
    head: [&str; 4],
    bytes: &[&str],
) -> Result<&'static str, Fault> {
    let (source, offset, bytes) = piece_in(alloc, head, bytes)?;
    if !poll.takes_piece(true, &source, offset, &bytes) {
        return Ok("ignored");
    }
    Ok(whole_word(poll.piece_of(source, offset, &bytes)?))
}

/// Takes the first piece of the text that is fetched, and tells whether it is whole then.
fn fetch(
    alloc: Global,
    poll: &mut Recovery,
    total: &str,
    bytes: &[&str],
) -> Result<&'static str, Fault> {
    let (total, bytes) = (number_in(total)?, bytes_of(alloc, bytes)?);
    if bytes.len() > total as usize {
        return Err(Fault::Form);
    }
    Ok(whole_word(poll.piece(total, 0, &bytes)?))
}

fn whole_word(whole: bool) -> &'static str {
    if whole { "whole" } else { "more" }
}
