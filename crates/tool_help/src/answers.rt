//! What is said to who asks for help.
ghost use Rattle.std.specs.Prelude.{◌≡◌, ◌++◌, IfOk, OnOk, string_bytes};
ghost use Rattle.afs_words.specs.Texts.{fault_text};
ghost use Rattle.afs_words.specs.Tables.{operations_of};
ghost use Rattle.tool_help.specs.Answers.{has_part, speaks_of, listed, all_listed, spoken_of, described, apropos_text, line_of, misused_text, topic_text, Told, Says, Answers};

use crate::asked::Help;
use crate::sentences::{sentence, tool_name};
use crate::usages::usage;
use afs_words::{Meant, Operation, Tool, Word, WordsFault, find_named};
use std::alloc::Global;
use ubik_types::NoMemory;

/// What is said, and the status of the program: 0 with a text for standard output, or 2 with a line for standard
/// error.
#[derive(Drop)]
pub struct Said {
    pub status: u8,
    pub text: String,
}

/// Whether a text has the word in it, letter by letter.
fn has_part(text: &[u8], word: &[u8]) -> bool
    ensures { result ≡ has_part word.now text.now }
{
    let mut rest = text;
    while let [_, behind @ ..] = rest {
        if rest.starts_with(word) {
            return true;
        }
        rest = behind;
    }
    word.is_empty()
}

/// Whether the name of an operation or its sentence has the word in it.
pub fn describes(operation: Operation, word: &[u8]) -> bool
    ensures { result ≡ speaks_of word.now operation }
{
    has_part(operation.name().as_bytes(), word) || has_part(sentence(operation).as_bytes(), word)
}

/// Adds the line of an operation: its name in a column, and its sentence.
fn push_listed(text: &mut String, operation: Operation) -> Result<(), NoMemory>
    ensures { OnOk result (string_bytes text.new ≡ string_bytes text.old ++ listed operation) }
{
    let name = operation.name();
    let does = sentence(operation);
    write!(text, "{name:<12}{does}\n")?;
    Ok(())
}

/// All operations of a command, a line for each.
fn all_listed(alloc: Global, tool: Tool) -> Result<String, NoMemory>
    ensures { IfOk result (λ text. string_bytes text ≡ all_listed tool) }
{
    let mut text = String::new(alloc);
    for operation in tool.operations() {
        push_listed(&mut text, *operation)?;
    }
    Ok(text)
}

/// The operations that have the word in name or sentence, a line for each.
fn spoken_of(alloc: Global, tool: Tool, word: &[u8]) -> Result<String, NoMemory>
    ensures { IfOk result (λ text. string_bytes text ≡ spoken_of word.now (operations_of tool)) }
{
    let mut text = String::new(alloc);
    for operation in tool.operations() {
        if describes(*operation, word) {
            push_listed(&mut text, *operation)?;
        }
    }
    Ok(text)
}

/// The operations that speak of a word, or a line that none does.
fn apropos(alloc: Global, tool: Tool, word: &Word) -> Result<String, NoMemory>
    ensures { IfOk result (λ text. string_bytes text ≡ apropos_text tool word.now) }
{
    let found = spoken_of(alloc, tool, word.as_bytes())?;
    if !found.is_empty() {
        return Ok(found);
    }
    let mut text = String::new(alloc);
    let command = tool_name(tool);
    write!(text, "no operation of {command} speaks of '{word}'\n")?;
    Ok(text)
}

/// What an operation does, and how it is typed.
fn described(alloc: Global, tool: Tool, operation: Operation) -> Result<String, NoMemory>
    ensures { IfOk result (λ text. string_bytes text ≡ described tool operation) }
{
    let mut text = String::new(alloc);
    let command = tool_name(tool);
    let name = operation.name();
    let does = sentence(operation);
    let typed = usage(alloc, tool, operation)?;
    write!(text, "{command} {name}: {does}\n{typed}")?;
    Ok(text)
}

/// What a command says of words that it does not take.
fn refused(alloc: Global, tool: Tool, fault: &WordsFault) -> Result<Said, NoMemory>
    ensures { IfOk result (λ said. Says said 2 (line_of tool (fault_text fault.now))) }
{
    let mut text = String::new(alloc);
    let command = tool_name(tool);
    write!(text, "{command}: {fault}\n")?;
    Ok(Said { status: 2, text })
}

/// A text for standard output.
fn told(text: String) -> Said
    ensures { Says result 0 (string_bytes text) }
{
    Said { status: 0, text }
}

/// What is said of an operation: its sentence and how it is typed, or how it is typed alone.
fn said_of(alloc: Global, tool: Tool, operation: Operation, alone: bool) -> Result<Said, NoMemory>
    ensures { IfOk result (λ said. Says said 0 (topic_text tool operation alone)) }
{
    if alone {
        Ok(told(usage(alloc, tool, operation)?))
    } else {
        Ok(told(described(alloc, tool, operation)?))
    }
}

/// What is said of the operation that a word names, or that it names none.
fn topic(alloc: Global, tool: Tool, word: &Word, alone: bool) -> Result<Said, NoMemory>
    ensures { IfOk result (λ said. Told said tool word.now alone) }
{
    let operations = tool.operations();
    match find_named(operations, word.as_bytes()) {
        Meant::Item(place) => said_of(alloc, tool, operations[place], alone),
        Meant::Unknown => {
            let word = Word::of(alloc, word.as_str())?;
            refused(alloc, tool, &WordsFault::UnknownOperation { word })
        }
        Meant::Ambiguous => {
            let word = Word::of(alloc, word.as_str())?;
            refused(alloc, tool, &WordsFault::AmbiguousOperation { word })
        }
    }
}

/// What `help` and `apropos` say of too many words, or too few.
fn misused(alloc: Global, tool: Tool) -> Result<Said, NoMemory>
    ensures { IfOk result (λ said. Says said 2 (misused_text tool)) }
{
    let mut text = String::new(alloc);
    let command = tool_name(tool);
    write!(
        text,
        "{command}: 'help' takes one operation at most, 'apropos' one word\n"
    )?;
    Ok(Said { status: 2, text })
}

/// What is said to who asks for help. The word of an operation is read as that of a command is.
pub fn answer(alloc: Global, tool: Tool, help: &Help) -> Result<Said, NoMemory>
    ensures { IfOk result (λ said. Answers tool help.now said) }
{
    match help {
        Help::Operations => Ok(told(all_listed(alloc, tool)?)),
        Help::Topic(word) => topic(alloc, tool, word, false),
        Help::Apropos(word) => Ok(told(apropos(alloc, tool, word)?)),
        Help::Usage(word) => topic(alloc, tool, word, true),
        Help::Misused => misused(alloc, tool),
    }
}
