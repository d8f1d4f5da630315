//! What the words of a program ask for.
ghost use Rattle.std.specs.Prelude.{◌≡◌, ◌∷◌, IfOk, map, option_map, string_bytes};
ghost use Rattle.cell_hosts.specs.Texts.{fault_text};
ghost use Rattle.cell_hosts.specs.Words.{hosts_of, words_left, refused_word};
ghost use Rattle.tool_help.specs.Answers.{line_of};
ghost use Rattle.tool_help.specs.Asked.{asked_in};
ghost use Rattle.tool_help.specs.Sentences.{tool_name};
ghost use Rattle.client_plans.specs.Plans.{Plans, PlansBehind, PlansLeft, PlansOwn, PlansFor, PlansOver, SourceOf, SaysPlan, HelpsAs, HelpsClient, HelpsNamed, named_tool, source_files};

use crate::texts::{asked_text, refused, told};
use afs_words::Tool;
use cell_hosts::{HostsFault, chosen_hosts, refuse_cells, take_hosts, without_ignored};
use std::alloc::Global;
use tool_help::{Said, answer, asked_help, tool_name};
use ubik_types::NoMemory;

/// What a program is to do.
#[derive(Drop)]
pub enum Plan {
    /// Says a text, and ends with its status.
    Say(Said),
    /// Runs the command of these words: the hosts, `vos` or `pts`, and its own.
    Command(Vec<String>),
    /// Runs the commands in a file, over these hosts.
    Source { hosts: String, file: String },
}

/// What is said where nothing names hosts.
const NO_HOSTS: &str = "no servers: give -hosts ADDRESS,ADDRESS,.., or set CAVYGOLD_HOSTS, \
here or in /etc/cavygold/cell";

/// What is said where `source` has no file, or more words than it.
const ONE_FILE: &str = "'source' takes one file, or - for standard input";

/// What the words of `vos` or `pts` ask for, where the environment and the file of the cell give these hosts: a text, a
/// command, or the commands of a file. `-hosts` with its word is taken out of them, and `-encrypt` and `-noresolve` are
/// left out. Help needs no hosts.
pub fn make_plan(
    alloc: Global,
    tool: Tool,
    words: Vec<String>,
    variable: Option<String>,
    file: &[u8],
) -> Result<Plan, NoMemory>
    ensures { IfOk result (λ plan. Plans string_bytes tool words.items (option_map string_bytes variable) file.now plan) }
{
    match asked_text(alloc, tool, &words)? {
        Some(text) => Ok(Plan::Say(told(text))),
        None => plan_words(alloc, tool, words, variable, file),
    }
}

/// The same of words that ask for no text of the program.
fn plan_words(
    alloc: Global,
    tool: Tool,
    words: Vec<String>,
    variable: Option<String>,
    file: &[u8],
) -> Result<Plan, NoMemory>
    ensures { IfOk result (λ plan. PlansBehind string_bytes tool (hosts_of string_bytes words.items)
        (words_left string_bytes words.items) (option_map string_bytes variable) file.now plan) }
{
    let mut words = words;
    match take_hosts(&mut words) {
        Ok(given) => plan_left(alloc, tool, given, words, variable, file),
        Err(fault) => say_fault(alloc, tool, fault),
    }
}

/// The same of words without their hosts.
fn plan_left(
    alloc: Global,
    tool: Tool,
    given: Option<String>,
    words: Vec<String>,
    variable: Option<String>,
    file: &[u8],
) -> Result<Plan, NoMemory>
    ensures { IfOk result (λ plan. PlansLeft string_bytes tool (refused_word string_bytes words.items)
        (option_map string_bytes given) words.items (option_map string_bytes variable) file.now plan) }
{
    match refuse_cells(&words) {
        Ok(()) => {
            let words = without_ignored(alloc, words)?;
            plan_own(alloc, tool, given, words, variable, file)
        }
        Err(fault) => say_fault(alloc, tool, fault),
    }
}

/// The same of words that are the command's own.
fn plan_own(
    alloc: Global,
    tool: Tool,
    given: Option<String>,
    words: Vec<String>,
    variable: Option<String>,
    file: &[u8],
) -> Result<Plan, NoMemory>
    ensures { IfOk result (λ plan. PlansOwn tool (option_map string_bytes given) (map string_bytes words.items)
        (option_map string_bytes variable) file.now plan) }
{
    match asked_help(alloc, &words)? {
        Some(help) => Ok(Plan::Say(answer(alloc, tool, &help)?)),
        None => {
            let hosts = chosen_hosts(alloc, given, variable, file)?;
            plan_for(alloc, tool, hosts, words)
        }
    }
}

/// Says why words are refused.
fn say_fault(alloc: Global, tool: Tool, fault: HostsFault) -> Result<Plan, NoMemory>
    ensures { IfOk result (λ plan. SaysPlan plan 2 (line_of tool (fault_text fault))) }
{
    let mut text = String::new(alloc);
    let command = tool_name(tool);
    write!(text, "{command}: {fault}\n")?;
    Ok(Plan::Say(Said { status: 2, text }))
}

/// What these words ask of these hosts.
fn plan_for(
    alloc: Global,
    tool: Tool,
    hosts: Option<String>,
    words: Vec<String>,
) -> Result<Plan, NoMemory>
    ensures { IfOk result (λ plan. PlansFor tool (option_map string_bytes hosts) (map string_bytes words.items) plan) }
{
    match hosts {
        Some(hosts) => plan_over(alloc, tool, hosts, words),
        None => Ok(Plan::Say(refused(alloc, tool, NO_HOSTS)?)),
    }
}

/// What these words ask of hosts that there are.
fn plan_over(alloc: Global, tool: Tool, hosts: String, words: Vec<String>) -> Result<Plan, NoMemory>
    ensures { IfOk result (λ plan. PlansOver tool (string_bytes hosts) (map string_bytes words.items) plan) }
{
    match source_files(&words) {
        Some(files) => plan_source(alloc, tool, hosts, files),
        None => Ok(Plan::Command(command(alloc, tool, hosts, words)?)),
    }
}

/// The words behind `source`, where it stands first.
fn source_files(words: &[String]) -> Option<&[String]>
    ensures { option_map (λ files. map string_bytes files.now) result ≡ source_files (map string_bytes words.now) }
{
    match words {
        [first, files @ ..] if first.as_str() == "source" => Some(files),
        _ => None,
    }
}

/// What the words behind `source` ask.
fn plan_source(alloc: Global, tool: Tool, hosts: String, files: &[String]) -> Result<Plan, NoMemory>
    ensures { IfOk result (λ plan. SourceOf tool (string_bytes hosts) (map string_bytes files.now) plan) }
{
    match files {
        [file] => {
            let file = String::from_str(alloc, file.as_str())?;
            Ok(Plan::Source { hosts, file })
        }
        _ => Ok(Plan::Say(refused(alloc, tool, ONE_FILE)?)),
    }
}

/// The words of a command with its hosts and its tool in front.
fn command(
    alloc: Global,
    tool: Tool,
    hosts: String,
    words: Vec<String>,
) -> Result<Vec<String>, NoMemory>
    ensures { IfOk result (λ all. map string_bytes all.items ≡ string_bytes hosts ∷ tool_name tool ∷ map string_bytes words.items) }
{
    let mut all = words;
    all.insert(0, String::from_str(alloc, tool_name(tool))?)?;
    all.insert(0, hosts)?;
    Ok(all)
}

/// What is said of the words of `afs_client`, HOSTS and a tool before its own, where they ask for help; nothing where
/// they are a command.
pub fn client_help(alloc: Global, words: &[String]) -> Result<Option<Said>, NoMemory>
    ensures { IfOk result (λ said. HelpsClient (map string_bytes words.now) said) }
{
    match words {
        [_hosts, name, words @ ..] => help_named(alloc, name.as_str(), words),
        _ => Ok(None),
    }
}

/// The tool that a word names, written out.
fn named_tool(name: &str) -> Option<Tool>
    ensures { result ≡ named_tool name.now }
{
    match name {
        "vos" => Some(Tool::Vos),
        "pts" => Some(Tool::Pts),
        _ => None,
    }
}

/// What is said of the words of a named tool, where they ask for help.
fn help_named(alloc: Global, name: &str, words: &[String]) -> Result<Option<Said>, NoMemory>
    ensures { IfOk result (λ said. HelpsNamed (named_tool name.now) (map string_bytes words.now) said) }
{
    match named_tool(name) {
        Some(tool) => help_of(alloc, tool, words),
        None => Ok(None),
    }
}

/// What is said of the words of a tool, where they ask for help.
fn help_of(alloc: Global, tool: Tool, words: &[String]) -> Result<Option<Said>, NoMemory>
    ensures { IfOk result (λ said. HelpsAs tool (asked_in (map string_bytes words.now)) said) }
{
    match asked_help(alloc, words)? {
        Some(help) => Ok(Some(answer(alloc, tool, &help)?)),
        None => Ok(None),
    }
}
