//! Words of calls and of what they find.
ghost use Rattle.std.specs.Prelude.{◌<◌, IfOk};
ghost use Rattle.ubik_types.specs.declared.limits.TheConstants.{MAXSERVERS};

use session_rows::{Fault, number_in};
use std::alloc::Global;
use ubik_types::{MAXSERVERS, Marks, Version};

/// The place of a server in a cell.
pub fn server_in(word: &str) -> Result<usize, Fault>
    ensures { IfOk result (λ server. server < MAXSERVERS) }
{
    let server = number_in(word)? as usize;
    if server >= MAXSERVERS {
        return Err(Fault::Form);
    }
    Ok(server)
}

/// A version, as `1076.2`.
pub fn version_in(word: &str) -> Result<Version, Fault> {
    let (epoch, counter) = word.split_once('.').ok_or(Fault::Form)?;
    let (epoch, counter) = (number_in(epoch)?, number_in(counter)?);
    Ok(Version { epoch, counter })
}

pub fn truth_in(word: &str) -> Result<bool, Fault> {
    match word {
        "yes" => Ok(true),
        "no" => Ok(false),
        _ => Err(Fault::Form),
    }
}

pub fn truth_word(truth: bool) -> &'static str {
    if truth { "yes" } else { "no" }
}

pub fn version_text(alloc: Global, version: Version) -> Result<String, Fault> {
    let Version { epoch, counter } = version;
    Ok(format!(in alloc; "{epoch}.{counter}")?)
}

pub fn word_text(alloc: Global, word: &str) -> Result<String, Fault> {
    Ok(String::from_str(alloc, word)?)
}

/// A number, or `none`.
pub fn number_text(alloc: Global, number: Option<u32>) -> Result<String, Fault> {
    match number {
        Some(number) => Ok(format!(in alloc; "{number}")?),
        None => word_text(alloc, "none"),
    }
}

/// The places of the servers of a set, or `none`.
pub fn marks_text(alloc: Global, marks: &Marks) -> Result<String, Fault> {
    let mut text = String::new(alloc);
    for (server, marked) in marks.set.iter().enumerate() {
        if *marked {
            if !text.as_str().is_empty() {
                text.push_str(" ")?;
            }
            text.push_str(format!(in alloc; "{server}")?.as_str())?;
        }
    }
    if text.as_str().is_empty() {
        text.push_str("none")?;
    }
    Ok(text)
}
