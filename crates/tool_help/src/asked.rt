//! Words that ask for help in place of a command.
ghost use Rattle.std.specs.Prelude.{◌≡◌, IfOk, map, string_bytes};
ghost use Rattle.tool_help.specs.Asked.{asked_alone, asked_usage, asked_of_one, asked_of_many, asked_in};

use afs_words::Word;
use std::alloc::Global;
use ubik_types::NoMemory;

/// What the words of a command ask to be told, where they are none for a server.
#[derive(Drop)]
pub enum Help {
    /// `help` alone: all operations.
    Operations,
    /// `help` with a word: the operation that it names.
    Topic(Word),
    /// `apropos` with a word: the operations that speak of it.
    Apropos(Word),
    /// `-help` alone behind a word: how the operation is typed that the word names.
    Usage(Word),
    /// `help` with several words, `apropos` with none or several.
    Misused,
}

/// What a word asks that stands alone.
fn asked_alone(word: &str) -> Option<Help>
    ensures { result ≡ asked_alone word.now }
{
    match word {
        "help" => Some(Help::Operations),
        "apropos" => Some(Help::Misused),
        _ => None,
    }
}

/// What two words ask of which the first is neither `help` nor `apropos`.
fn asked_usage(alloc: Global, first: &str, second: &str) -> Result<Option<Help>, NoMemory>
    ensures { IfOk result (λ asked. asked ≡ asked_usage first.now second.now) }
{
    match second {
        "-help" => Ok(Some(Help::Usage(Word::of(alloc, first)?))),
        _ => Ok(None),
    }
}

/// What two words ask.
fn asked_of_one(alloc: Global, first: &str, second: &str) -> Result<Option<Help>, NoMemory>
    ensures { IfOk result (λ asked. asked ≡ asked_of_one first.now second.now) }
{
    match first {
        "help" => Ok(Some(Help::Topic(Word::of(alloc, second)?))),
        "apropos" => Ok(Some(Help::Apropos(Word::of(alloc, second)?))),
        _ => asked_usage(alloc, first, second),
    }
}

/// What more than two words ask, by the first.
fn asked_of_many(first: &str) -> Option<Help>
    ensures { result ≡ asked_of_many first.now }
{
    match first {
        "help" | "apropos" => Some(Help::Misused),
        _ => None,
    }
}

/// What the words of `vos` or `pts` ask to be told, without the name of the command; nothing where they are words for
/// [`afs_words::read_words`]. The words are taken whole, and not by their first letters.
pub fn asked_help(alloc: Global, words: &[String]) -> Result<Option<Help>, NoMemory>
    ensures { IfOk result (λ asked. asked ≡ asked_in (map string_bytes words.now)) }
{
    match words {
        [] => Ok(None),
        [only] => Ok(asked_alone(only.as_str())),
        [first, second] => asked_of_one(alloc, first.as_str(), second.as_str()),
        [first, ..] => Ok(asked_of_many(first.as_str())),
    }
}
