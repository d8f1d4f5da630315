//! What an operation takes, in one line.
ghost use Rattle.std.specs.Prelude.{◌≡◌, ◌++◌, IfOk, OnOk, string_bytes};
ghost use Rattle.std.specs.List.{flat_map};
ghost use Rattle.afs_words.specs.Tables.{parameters_of, common_parameters};
ghost use Rattle.tool_help.specs.Usages.{taken, shown, usage_of};

use crate::sentences::tool_name;
use crate::value_names::value_name;
use afs_words::{COMMON, Need, Operation, Parameter, Takes, Tool};
use std::alloc::Global;
use ubik_types::NoMemory;

/// A switch with the name of its value in angles, and a `+` where it takes a list.
fn taken(alloc: Global, operation: Operation, parameter: Parameter) -> Result<String, NoMemory>
    ensures { IfOk result (λ text. string_bytes text ≡ taken operation parameter) }
{
    let mut text = String::new(alloc);
    let switch = parameter.switch;
    match parameter.takes {
        Takes::Flag | Takes::LoneFlag => write!(text, "-{switch}")?,
        Takes::One(form) => {
            let value = value_name(operation, switch, form);
            write!(text, "-{switch} <{value}>")?;
        }
        Takes::Many(form) | Takes::EachOfFirst(form) => {
            let value = value_name(operation, switch, form);
            write!(text, "-{switch} <{value}>+")?;
        }
    }
    Ok(text)
}

/// A switch behind a blank, in brackets where it may be left out.
fn shown(alloc: Global, operation: Operation, parameter: Parameter) -> Result<String, NoMemory>
    ensures { IfOk result (λ text. string_bytes text ≡ shown operation parameter) }
{
    let mut text = String::new(alloc);
    let inner = taken(alloc, operation, parameter)?;
    match parameter.need {
        Need::Required => write!(text, " {inner}")?,
        Need::Optional | Need::OneOf => write!(text, " [{inner}]")?,
    }
    Ok(text)
}

/// Adds the switches to a text, one behind the other.
fn push_switches(
    alloc: Global,
    text: &mut String,
    operation: Operation,
    parameters: &[Parameter],
) -> Result<(), NoMemory>
    ensures { OnOk result (string_bytes text.new ≡ string_bytes text.old ++ flat_map (shown operation) parameters.now) }
{
    for parameter in parameters {
        let more = shown(alloc, operation, *parameter)?;
        text.push_str(more.as_str())?;
    }
    Ok(())
}

/// The line that says how an operation is typed: its switches in the order of the table, and then those that every
/// operation takes.
pub fn usage(alloc: Global, tool: Tool, operation: Operation) -> Result<String, NoMemory>
    ensures { IfOk result (λ text. string_bytes text ≡ usage_of tool operation) }
{
    let mut text = String::new(alloc);
    let command = tool_name(tool);
    let name = operation.name();
    write!(text, "Usage: {command} {name}")?;
    push_switches(alloc, &mut text, operation, operation.parameters())?;
    push_switches(alloc, &mut text, operation, &COMMON)?;
    text.push_str("\n")?;
    Ok(text)
}
