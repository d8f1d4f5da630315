//! The words of a command, understood.
ghost use Rattle.std.specs.Prelude.{◌≡◌, ◌<◌, ◌++◌, length, map, take, string_bytes, slice_get, option_map, Some, IfOk, IfSome};
ghost use Rattle.afs_words.specs.Making.{IsCommand};
ghost use Rattle.afs_words.specs.Tables.{parameters_of, common_parameters};
ghost use Rattle.afs_words.specs.Meaning.{Means, slots_of, command_of, meaning_of};

use crate::faults::WordsFault;
use crate::judged::Judged;
use crate::making::tool_command;
use crate::matching::{Meant, Named, find_named};
use crate::switches::{Switches, front};
use crate::tables::{COMMON, Operation, Parameter, Tool};
use crate::values::{Slot, Word};
use afs_commands::ToolCommand;
use std::alloc::Global;
use std::marker::Model;
use ubik_types::NoMemory;

/// A command that was understood: its operation, its own switches in the order of the table with their values, and
/// the command that these make.
#[derive(Drop)]
pub struct Words {
    operation: Operation,
    switches: Judged,
    command: ToolCommand,
}

impl Model for Words {
    ghost use Rattle.afs_words.specs.Command.{Command};

    ghost Value = { Command };

    ghost use Rattle.afs_words.specs.Making.{IsCommand};

    ghost view = { λ w. record { operation = w.operation; switches = w.switches } };

    ghost invariant = { λ w. IsCommand w.command w.operation w.switches };
}

impl Words {
    pub fn operation(&self) -> Operation
        ensures { result ≡ self.now.operation }
    {
        self.operation
    }

    /// The operation's own switches with their values, in the order of the table.
    pub fn switches(&self) -> &[Slot]
        ensures { result.now ≡ self.now.switches }
    {
        self.switches.as_slice()
    }

    /// What the command is asked to do, with its values read.
    pub fn command(&self) -> &ToolCommand
        ensures { IsCommand result.now self.now.operation self.now.switches }
    {
        &self.command
    }

    /// How many values the switch at this place of the operation's table has.
    pub fn count(&self, switch: u32) -> usize
        requires { switch < length self.now.switches }
        ensures { option_map (λ slot. length slot.values) (slice_get self.now.switches switch) ≡ Some result }
    {
        self.values(switch).len()
    }

    /// A value of the switch at this place of the operation's table.
    pub fn value(&self, switch: u32, i: usize) -> &[u8]
        requires place { switch < length self.now.switches }
        requires value { IfSome (slice_get self.now.switches switch) (λ slot. i < length slot.values) }
        ensures { IfSome (slice_get self.now.switches switch) (λ slot. slice_get slot.values i ≡ Some result.now) }
    {
        self.values(switch)[i].as_bytes()
    }

    /// The values of the switch at this place of the operation's table.
    pub fn values(&self, switch: u32) -> &[Word]
        requires { switch < length self.now.switches }
        ensures { option_map (λ slot. slot.values) (slice_get self.now.switches switch) ≡ Some result.now }
    {
        self.switches()[switch as usize].values.as_slice()
    }
}

impl Named for Operation {
    ghost use Rattle.afs_words.specs.Tables.{operation_name};

    ghost named = { λ o. operation_name o };

    fn name(&self) -> &'static str {
        Operation::name(*self)
    }
}

/// What the words of a command mean, without the name of the command itself; or why they mean nothing. The first
/// word is the operation.
pub fn read_words(alloc: Global, tool: Tool, words: &[String]) -> Result<Words, WordsFault>
    ensures { Means (meaning_of tool (map string_bytes words.now)) result }
{
    let [word, rest @ ..] = words else {
        return Err(WordsFault::UnknownOperation {
            word: Word::of(alloc, "")?,
        });
    };
    let operations = tool.operations();
    match find_named(operations, word.as_bytes()) {
        Meant::Unknown => Err(WordsFault::UnknownOperation {
            word: Word::of(alloc, word.as_str())?,
        }),
        Meant::Ambiguous => Err(WordsFault::AmbiguousOperation {
            word: Word::of(alloc, word.as_str())?,
        }),
        Meant::Item(place) => read_command(alloc, operations[place], rest),
    }
}

/// What the words behind an operation mean.
fn read_command(alloc: Global, operation: Operation, words: &[String]) -> Result<Words, WordsFault>
    ensures { Means (command_of operation (map string_bytes words.now)) result }
{
    let own = operation.parameters();
    let parameters = with_common(alloc, own)?;
    let mut switches = read_slots(alloc, parameters.as_slice(), words)?;
    switches.truncate(own.len());
    let command = tool_command(alloc, operation, &switches)?;
    Ok(Words {
        operation,
        switches,
        command,
    })
}

/// A table with the switches that every operation takes behind its own.
fn with_common(alloc: Global, own: &[Parameter]) -> Result<Vec<Parameter>, NoMemory>
    ensures { IfOk result (λ parameters. parameters.items ≡ own.now ++ common_parameters) }
{
    let mut parameters = own.to_vec(alloc)?;
    parameters.extend_from_slice(&COMMON)?;
    Ok(parameters)
}

/// The switches of a table with the values that the words give them, all of which are good.
fn read_slots(
    alloc: Global,
    parameters: &[Parameter],
    words: &[String],
) -> Result<Judged, WordsFault>
    ensures { Means (slots_of parameters.now (map string_bytes words.now)) result }
{
    let filled = Switches::filled(alloc, parameters, front(words))?;
    let switches = filled.read(alloc, words)?;
    Judged::of(alloc, switches)
}
