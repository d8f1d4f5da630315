//! An entry: the moment, where the peer is, the call in words, and the answer.
ghost use Rattle.std.specs.Prelude.{◌≡◌, ◌++◌, ◌∷◌, ◌<◌, codes, OnOk};
ghost use Rattle.std.specs.List.{flat_map};
ghost use Rattle.server_diary.specs.Entries.{TellsCall, digit, pair};

use crate::answer_texts::answer_text;
use crate::call_words::call_words;
use crate::open_calls::OpenCall;
use server_texts::Database;
use std::alloc::Global;
use ubik_calls::Reply;
use ubik_types::{Bytes, Host, NoMemory};

/// The entry of a call that was answered, as a line: the moment in Unix seconds, the host of the peer, the call, `->` and the answer.
pub(crate) fn entry_of(
    alloc: Global,
    database: Database,
    moment: u32,
    call: &OpenCall,
    reply: &Reply,
) -> Result<Bytes, NoMemory> {
    let head = head_text(alloc, moment, call.host)?;
    let answer = answer_text(alloc, database, call.call.as_slice(), reply)?;
    let mut line = Vec::new(alloc);
    line.extend_from_slice(head.as_bytes())?;
    tell_call(&mut line, alloc, database, call.call.as_slice())?;
    line.extend_from_slice(b" ->")?;
    line.extend_from_slice(answer.as_bytes())?;
    line.push(b'\n')?;
    Ok(Bytes::new(line))
}

/// The moment, and the host of a peer; `gone` where it is not known any more.
fn head_text(alloc: Global, moment: u32, host: Option<Host>) -> Result<String, NoMemory> {
    let mut text = String::new(alloc);
    match host {
        Some(host) => write!(text, "{moment} {host}")?,
        None => write!(text, "{moment} gone")?,
    }
    Ok(text)
}

/// Adds a call: the words that name it, each behind a blank; its bytes, where a string in it has no word.
fn tell_call(
    line: &mut Vec<u8>,
    alloc: Global,
    database: Database,
    call: &[u8],
) -> Result<(), NoMemory>
    ensures { OnOk result (TellsCall database call.now line.old.items line.new.items) }
{
    match call_words(alloc, database, call)? {
        Some(words) => tell_words(line, &words),
        None => tell_bytes(line, call),
    }
}

/// Adds words, each behind a blank.
fn tell_words(line: &mut Vec<u8>, words: &[Bytes]) -> Result<(), NoMemory>
    ensures { OnOk result (line.new.items ≡ line.old.items ++ flat_map (λ word. 32 ∷ word) words.now) }
{
    for word in words {
        line.push(b' ')?;
        line.extend_from_slice(word.as_slice())?;
    }
    Ok(())
}

/// Adds bytes, each as two digits, behind the word `bytes`.
fn tell_bytes(line: &mut Vec<u8>, bytes: &[u8]) -> Result<(), NoMemory>
    ensures { OnOk result (line.new.items ≡ line.old.items ++ codes " bytes " ++ flat_map pair bytes.now) }
{
    line.extend_from_slice(b" bytes ")?;
    for byte in bytes {
        line.push(digit(*byte / 16))?;
        line.push(digit(*byte % 16))?;
    }
    Ok(())
}

/// The digit of a number below 16.
fn digit(number: u8) -> u8
    requires { number < 16 }
    ensures { result ≡ digit number }
{
    if number < 10 {
        b'0' + number
    } else {
        b'a' + (number - 10)
    }
}
