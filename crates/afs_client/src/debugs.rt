//! The command `udebug`: its words, and what comes of them.
ghost use Rattle.std.specs.Prelude.{◌≡◌, map, string_bytes};
ghost use Rattle.disk_base.specs.Count.{HasCause};
ghost use Rattle.afs_client.specs.Debugs.{Looked, debug_of, no_more};

use crate::hosts::Hosts;
use crate::requests::{DebugRequest, Request, RequestFault};
use disk_base::Sink;
use io_base::Link;
use std::alloc::Global;
use udebug_tool::{ServerKind, run_udebug};

/// What the words behind `udebug` ask for: a kind of server, of these hosts. A word that is missing is a bad one at its place.
pub(crate) fn read_kind(hosts: Hosts, words: &[String]) -> Result<Request, RequestFault>
    ensures { result ≡ debug_of hosts (map string_bytes words.now) }
{
    let [word, rest @ ..] = words else {
        return Err(RequestFault::BadWord { place: 3 });
    };
    match ServerKind::named(word.as_bytes()) {
        Some(kind) => read_end(hosts, kind, rest),
        None => Err(RequestFault::BadWord { place: 3 }),
    }
}

/// The request, where no word is left.
fn read_end(hosts: Hosts, kind: ServerKind, words: &[String]) -> Result<Request, RequestFault>
    ensures { result ≡ no_more hosts (map string_bytes words.now) (Some kind) }
{
    match words {
        [] => Ok(Request::Debug(DebugRequest { hosts, kind })),
        [_, ..] => Err(RequestFault::BadWord { place: 4 }),
    }
}

/// Asks the hosts of a request; the status.
pub(crate) fn look<L: Link, K: Sink>(
    alloc: Global,
    request: &DebugRequest,
    link: &mut L,
    out: &mut K,
) -> u8
    ensures looked { Looked request.now (L.exchanges link.old) (L.exchanges link.new) result (K.written out.old) (K.written out.new) }
    ensures write_fault { HasCause (K.faults out.old) (K.faults out.new) (result ≡ 4) }
{
    let hosts = request.hosts.as_slice();
    match run_udebug(alloc, request.kind, hosts, link, out) {
        Ok(()) => 0,
        Err(stop) => stop.status(),
    }
}
