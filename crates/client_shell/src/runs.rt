//! What comes of the words of a program.
ghost use Rattle.std.specs.Prelude.{◌≡◌, true, false, IfOk, Err, map, string_bytes};
ghost use Rattle.client_shell.specs.Runs.{CommandDone, IsNoFile, PlanDone, names_hosts};
ghost use Rattle.client_shell.specs.Standing.{stands};

use crate::links::CommandLink;
use crate::refusals::{BAD_HOSTS, NESTED, NO_OPEN, say_refused};
use crate::sayings::say_said;
use crate::sources::{Shell, run_source};
use afs_client::{Hosts, HostsFault, client_top};
use afs_words::Tool;
use client_plans::Plan;
use disk_base::{ReaderSource, Sink};
use std::alloc::Global;
use std::fs;
use std::io::{BufReader, Read};
use std::rt::Files;
use tool_base::Stop;

/// Runs the command of these words; where the first of them is no list of hosts, that is said, and nothing is asked.
pub(crate) fn run_command<L: CommandLink, K: Sink>(
    alloc: Global,
    tool: Tool,
    words: &[String],
    link: &mut L,
    out: &mut K,
    err: &mut K,
) -> u8
    ensures { CommandDone L.begun tool (map string_bytes words.now)
        (stands L.exchanges K.written K.faults link.old out.old err.old)
        (stands L.exchanges K.written K.faults link.new out.new err.new) result }
{
    match judged_hosts(alloc, words) {
        Ok(()) => {
            link.begin_command();
            client_top(alloc, words, link, out, err)
        }
        Err(HostsFault::Malformed) => say_refused(alloc, tool, BAD_HOSTS, err),
        Err(HostsFault::NoMemory) => Stop::NoMemory.status(),
    }
}

/// Judges the hosts that stand first.
fn judged_hosts(alloc: Global, words: &[String]) -> Result<(), HostsFault>
    ensures hosts { IfOk result (λ _. names_hosts (map string_bytes words.now) ≡ true) }
    ensures malformed { result ≡ Err HostsFault.Malformed → names_hosts (map string_bytes words.now) ≡ false }
{
    match words {
        [] => Ok(()),
        [hosts, ..] => {
            let _hosts = Hosts::parse(alloc, hosts.as_bytes())?;
            Ok(())
        }
    }
}

/// Does what was planned, and gives the status of the program. Of the commands of a file `run_source` tells.
pub fn run_plan<R: Files + Input + AllocGlobal, L: CommandLink, K: Sink>(
    rt: &R,
    tool: Tool,
    plan: &Plan,
    link: &mut L,
    out: &mut K,
    err: &mut K,
) -> u8
    ensures { IsNoFile plan.now → PlanDone L.begun tool plan.now
        (stands L.exchanges K.written K.faults link.old out.old err.old)
        (stands L.exchanges K.written K.faults link.new out.new err.new) result }
{
    match plan {
        Plan::Say(_) | Plan::Command(_) => run_planned(rt.alloc(), tool, plan, link, out, err),
        Plan::Source { hosts, file } => {
            let shell = Shell {
                alloc: rt.alloc(),
                tool,
                hosts: hosts.as_str(),
            };
            run_file(rt, &shell, file.as_str(), link, out, err)
        }
    }
}

/// Does what was planned, where that is no file of commands: a line of one names no other.
pub(crate) fn run_planned<L: CommandLink, K: Sink>(
    alloc: Global,
    tool: Tool,
    plan: &Plan,
    link: &mut L,
    out: &mut K,
    err: &mut K,
) -> u8
    ensures { PlanDone L.begun tool plan.now
        (stands L.exchanges K.written K.faults link.old out.old err.old)
        (stands L.exchanges K.written K.faults link.new out.new err.new) result }
{
    match plan {
        Plan::Say(said) => say_said(said, out, err),
        Plan::Command(words) => run_command(alloc, tool, words, link, out, err),
        Plan::Source { .. } => say_refused(alloc, tool, NESTED, err),
    }
}

/// Runs the commands in a file; `-` is standard input.
fn run_file<R: Files + Input + AllocGlobal, L: CommandLink, K: Sink>(
    rt: &R,
    shell: &Shell<'_>,
    file: &str,
    link: &mut L,
    out: &mut K,
    err: &mut K,
) -> u8 {
    if file == "-" {
        return run_read(shell, rt.reader(), link, out, err);
    }
    match fs::open(rt, file) {
        Ok(opened) => run_read(shell, opened, link, out, err),
        Err(_) => say_refused(shell.alloc, shell.tool, NO_OPEN, err),
    }
}

/// Runs the commands that a reader gives.
fn run_read<F: Read + Drop, L: CommandLink, K: Sink>(
    shell: &Shell<'_>,
    reader: F,
    link: &mut L,
    out: &mut K,
    err: &mut K,
) -> u8 {
    match BufReader::new(shell.alloc, reader) {
        Ok(reader) => run_source(shell, &mut ReaderSource::new(reader), link, out, err),
        Err(_) => Stop::NoMemory.status(),
    }
}
