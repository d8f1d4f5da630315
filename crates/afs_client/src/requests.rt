//! What the words of the program ask for.
ghost use Rattle.std.specs.Prelude.{◌≡◌, ◌≢◌, map, string_bytes, option_map, Err};
ghost use Rattle.afs_client.specs.Requests.{behind_hosts, request_of, tool_name, tool_of, with_tool};

use crate::debugs::read_kind;
use crate::hosts::{Hosts, HostsFault};
use afs_words::{Tool, Words, WordsFault, read_words};
use std::alloc::Global;
use std::error::Error;
use std::fmt;
use udebug_tool::ServerKind;

/// A command of `vos` or `pts`, and the hosts that are asked its calls.
#[derive(Drop)]
pub struct CommandRequest {
    pub hosts: Hosts,
    pub tool: Tool,
    pub words: Words,
}

/// The hosts that are asked of themselves, and the kind of server that is meant.
#[derive(Drop)]
pub struct DebugRequest {
    pub hosts: Hosts,
    pub kind: ServerKind,
}

/// What is to be run.
#[derive(Drop)]
pub enum Request {
    Command(CommandRequest),
    /// `udebug`.
    Debug(DebugRequest),
}

/// Why the words of the program are refused.
#[derive(Debug, Drop)]
pub enum RequestFault {
    /// The word at this place, counted from 1, is none that the program takes there, or is missing.
    BadWord { place: u32 },
    /// The words of the command are refused.
    BadCommand { tool: Tool, fault: WordsFault },
    NoMemory,
}

impl fmt::Display for RequestFault {
    ghost use Rattle.std.specs.Prelude.{Some};
    ghost use Rattle.afs_client.specs.Requests.{fault_text};

    ghost output = { λ fault. Some (fault_text fault) };

    fn fmt<W: fmt::Write>(&self, f: &mut fmt::Formatter<W>) -> fmt::Result {
        match self {
            RequestFault::BadWord { place } => write!(f, "afs_client: bad word {place}"),
            RequestFault::BadCommand { tool, fault } => {
                let name = tool_name(*tool);
                write!(f, "{name}: {fault}")
            }
            RequestFault::NoMemory => write!(f, "afs_client: out of memory"),
        }
    }
}

impl Error for RequestFault {}

/// The name of a command.
pub fn tool_name(tool: Tool) -> &'static str
    ensures { result.now ≡ tool_name tool }
{
    match tool {
        Tool::Vos => "vos",
        Tool::Pts => "pts",
    }
}

/// What the words of the program ask for: the hosts, and then `vos` or `pts` with the words of that command, or `udebug` with a kind
/// of server.
pub fn read_request(alloc: Global, words: &[String]) -> Result<Request, RequestFault>
    ensures { result ≢ Err RequestFault.NoMemory → result ≡ request_of (map string_bytes words.now) }
{
    let [word, rest @ ..] = words else {
        return Err(RequestFault::BadWord { place: 1 });
    };
    match Hosts::parse(alloc, word.as_bytes()) {
        Ok(hosts) => read_name(alloc, hosts, rest),
        Err(HostsFault::Malformed) => Err(RequestFault::BadWord { place: 1 }),
        Err(HostsFault::NoMemory) => Err(RequestFault::NoMemory),
    }
}

/// What the words behind the hosts ask for.
fn read_name(alloc: Global, hosts: Hosts, words: &[String]) -> Result<Request, RequestFault>
    ensures { result ≢ Err RequestFault.NoMemory → result ≡ behind_hosts (map string_bytes words.now) (Some hosts) }
{
    let [word, rest @ ..] = words else {
        return Err(RequestFault::BadWord { place: 2 });
    };
    if word.as_str() == "udebug" {
        return read_kind(hosts, rest);
    }
    match tool_of(word.as_str()) {
        Some(tool) => read_command(alloc, hosts, tool, rest),
        None => Err(RequestFault::BadWord { place: 2 }),
    }
}

fn tool_of(word: &str) -> Option<Tool>
    ensures { result ≡ tool_of word.now }
{
    match word {
        "vos" => Some(Tool::Vos),
        "pts" => Some(Tool::Pts),
        _ => None,
    }
}

/// What the words of a command ask for.
fn read_command(
    alloc: Global,
    hosts: Hosts,
    tool: Tool,
    words: &[String],
) -> Result<Request, RequestFault>
    ensures { result ≢ Err RequestFault.NoMemory → result ≡ with_tool hosts (map string_bytes words.now) (Some tool) }
{
    match read_words(alloc, tool, words) {
        Ok(words) => Ok(Request::Command(CommandRequest { hosts, tool, words })),
        Err(WordsFault::NoMemory) => Err(RequestFault::NoMemory),
        Err(fault) => Err(RequestFault::BadCommand { tool, fault }),
    }
}
