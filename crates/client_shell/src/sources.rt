//! Commands out of a file, one a line.
ghost use Rattle.std.specs.Prelude.{◌≡◌, ◌≢◌, ◌≤◌, ◌<◌, ◌+◌, IfSome, IfOk, [], Some, None, Err, length, string_bytes};
ghost use Rattle.command_lines.specs.Cuts.{HasNoText, words_of};
ghost use Rattle.command_lines.specs.declared.lines.TheConstants.{MAX_COMMAND};
ghost use Rattle.disk_base.specs.Count.{HasCause};
ghost use Rattle.client_shell.specs.Sources.{LinePlans, LineWithin, Named, SourceRan, line_named};
ghost use Rattle.client_shell.specs.Standing.{stands};
ghost use Rattle.client_shell.specs.Turns.{NamedUnlessWell, Turned};

use crate::links::CommandLink;
use crate::refusals::{LONG_LINE, NO_READ, NO_TEXT, OPEN_QUOTE, say_refused};
use crate::runs::run_planned;
use crate::sayings::say_line;
use afs_words::Tool;
use cell_script::LineEnd;
use client_plans::{Plan, make_plan};
use command_lines::{CommandReader, LineFault, command_words, is_passed_over};
use disk_base::{Sink, Source};
use std::alloc::Global;
use tool_base::Stop;
use tool_help::tool_name;
use ubik_types::NoMemory;

/// Whose commands stand in a file, and the hosts that they ask where they name none.
#[derive(Clone, Copy)]
pub struct Shell<'h> {
    pub alloc: Global,
    pub tool: Tool,
    pub hosts: &'h str,
}

/// Runs the commands of a source, one a line, over one link: each is typed as behind the name of the program. Lines that are
/// blank or have `#` in front are passed over. The first line whose command does not end with 0 is the last; it is named
/// with its number on `err`, and its status is the result. A line that is no command ends with 2.
pub fn run_source<S: Source, L: CommandLink, K: Sink>(
    shell: &Shell<'_>,
    source: &mut S,
    link: &mut L,
    out: &mut K,
    err: &mut K,
) -> u8
    ensures ran { IfSome (S.left source.old) (λ text. SourceRan L.begun shell.now.tool shell.now.hosts.now text
        (S.faults source.old < S.faults source.new) (S.left source.new)
        (stands L.exchanges K.written K.faults link.old out.old err.old)
        (stands L.exchanges K.written K.faults link.new out.new err.new) result) }
    ensures whole { result ≡ 0 → IfSome (S.left source.old) (λ _. S.left source.new ≡ Some []) }
{
    let Ok(mut reader) = CommandReader::new(shell.alloc) else {
        return Stop::NoMemory.status();
    };
    for number in 1..u64::MAX {
        if let Some(status) = run_next(shell, number, &mut reader, source, link, out, err) {
            return status;
        }
    }
    // No source has so many lines.
    Stop::NoMemory.status()
}

/// Reads the next line and runs its command. The status of all, or none where the lines go on.
fn run_next<S: Source, L: CommandLink, K: Sink>(
    shell: &Shell<'_>,
    number: u64,
    reader: &mut CommandReader,
    source: &mut S,
    link: &mut L,
    out: &mut K,
    err: &mut K,
) -> Option<u8>
    ensures turned { IfSome (S.left source.old) (λ text. Turned L.begun shell.now.tool shell.now.hosts.now number
        (S.faults source.old < S.faults source.new) reader.old.ended text (S.left source.new) reader.new.ended
        (stands L.exchanges K.written K.faults link.old out.old err.old)
        (stands L.exchanges K.written K.faults link.new out.new err.new) result) }
    ensures read_faults { S.faults source.old ≤ S.faults source.new }
{
    match reader.next_line(source) {
        LineEnd::End => Some(0),
        LineEnd::Line => {
            let own = run_line(shell, reader.line(), link, out, err);
            name_unless_well(shell, number, own, err)
        }
        LineEnd::TooLong => {
            let own = say_refused(shell.alloc, shell.tool, LONG_LINE, err);
            name_unless_well(shell, number, own, err)
        }
        LineEnd::Failed => {
            let own = say_refused(shell.alloc, shell.tool, NO_READ, err);
            name_unless_well(shell, number, own, err)
        }
    }
}

/// Names a line that did not end with 0. The status of all, or none where it did.
fn name_unless_well<K: Sink>(shell: &Shell<'_>, number: u64, own: u8, err: &mut K) -> Option<u8>
    ensures { NamedUnlessWell shell.now.tool number own (K.written err.old) (K.written err.new)
        (K.faults err.old) (K.faults err.new) result }
{
    if own == 0 {
        None
    } else {
        Some(name_line(shell, number, own, err))
    }
}

/// Runs the command of a line, where it is one; its status.
fn run_line<L: CommandLink, K: Sink>(
    shell: &Shell<'_>,
    line: &[u8],
    link: &mut L,
    out: &mut K,
    err: &mut K,
) -> u8
    ensures { LineWithin L.begun shell.now.tool shell.now.hosts.now line.now
        (stands L.exchanges K.written K.faults link.old out.old err.old)
        (stands L.exchanges K.written K.faults link.new out.new err.new) result }
{
    if is_passed_over(line) {
        return 0;
    }
    match line_plan(shell, line) {
        Ok(plan) => run_planned(shell.alloc, shell.tool, &plan, link, out, err),
        Err(LineFault::NoMemory) => Stop::NoMemory.status(),
        Err(LineFault::OpenQuote) => say_refused(shell.alloc, shell.tool, OPEN_QUOTE, err),
        Err(LineFault::NotText) => say_refused(shell.alloc, shell.tool, NO_TEXT, err),
    }
}

/// What the words of a line ask for.
fn line_plan(shell: &Shell<'_>, line: &[u8]) -> Result<Plan, LineFault>
    ensures plan { IfOk result (LinePlans shell.now.tool shell.now.hosts.now line.now) }
    ensures open_quote { result ≡ Err LineFault.OpenQuote → words_of line.now ≡ None }
    ensures not_text { result ≡ Err LineFault.NotText → HasNoText (words_of line.now) }
{
    let words = command_words(shell.alloc, line)?;
    let hosts = own_hosts(shell)?;
    let plan = make_plan(shell.alloc, shell.tool, words, Some(hosts), &[])?;
    Ok(plan)
}

/// The hosts of a shell, as a text of their own.
fn own_hosts(shell: &Shell<'_>) -> Result<String, NoMemory>
    ensures { IfOk result (λ hosts. string_bytes hosts ≡ shell.now.hosts.now) }
{
    let hosts = String::from_str(shell.alloc, shell.hosts)?;
    Ok(hosts)
}

/// Names a line that did not end with 0; its status, or what came of the naming.
fn name_line<K: Sink>(shell: &Shell<'_>, number: u64, own: u8, err: &mut K) -> u8
    ensures named { Named shell.now.tool number own (K.written err.old) (K.written err.new) result }
    ensures cause { HasCause (K.faults err.old) (K.faults err.new) ((own ≢ 4) × (result ≡ 4)) }
{
    match line_named(shell.alloc, shell.tool, number, own) {
        Ok(text) => say_line(text.as_str(), own, err),
        Err(NoMemory) => Stop::NoMemory.status(),
    }
}

/// The text that names a line.
fn line_named(alloc: Global, tool: Tool, number: u64, own: u8) -> Result<String, NoMemory>
    ensures { IfOk result (λ text. string_bytes text ≡ line_named tool number own) }
{
    let mut text = String::new(alloc);
    let command = tool_name(tool);
    write!(text, "{command}: line {number} ended with {own}\n")?;
    Ok(text)
}
