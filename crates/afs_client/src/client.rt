//! The program, from its words to its status.
ghost use Rattle.std.specs.Prelude.{◌≡◌, ◌+◌, map, string_bytes, IfOk, Err};
ghost use Rattle.disk_base.specs.Count.{HasCause};
ghost use Rattle.afs_client.specs.Client.{ClientRan, Declines, RequestRan, SaysFault, WordsJudged, asker_of, course_of, fault_line};
ghost use Rattle.afs_client.specs.Explained.{IsExplained};
ghost use Rattle.afs_client.specs.Requests.{request_of, tool_name};
ghost use Rattle.tool_base.specs.Ending.{Commanded};

use crate::debugs::look;
use crate::requests::{CommandRequest, Request, RequestFault, read_request};
use afs_words::Tool;
use disk_base::Sink;
use io_base::Link;
use pts_tool::run_pts;
use std::alloc::Global;
use tool_base::{Stop, say};
use ubik_types::NoMemory;
use vos_tool::run_vos;

/// The status of words that mean nothing.
const BAD_WORDS: u8 = 2;

/// Runs the program with these words: the hosts that are asked, in their order, then `vos` or `pts` and the words of that
/// command, or `udebug` and the kind of server. Texts go to `out`; the line of a refusal, of hosts of which none took a call, of an
/// unknown outcome, and of words that mean nothing goes to `err`.
///
/// Statuses: 0 the command is done, 1 it is refused, 2 the words mean nothing, 3 no host took a call, or answered `udebug`, 4 a sink
/// failed, 5 memory ran out, 6 a call that writes may have taken place. What was written before stays.
pub fn client_top<L: Link, K: Sink>(
    alloc: Global,
    words: &[String],
    link: &mut L,
    out: &mut K,
    err: &mut K,
) -> u8
    ensures ran { ClientRan (request_of (map string_bytes words.now)) (L.exchanges link.old) (L.exchanges link.new) result
        (K.written out.old) (K.written out.new) (K.written err.old) (K.written err.new) }
    ensures bad_words { WordsJudged (request_of (map string_bytes words.now)) result }
    ensures explained { IfOk (request_of (map string_bytes words.now))
        (λ request. IsExplained request (L.exchanges link.old) (L.exchanges link.new) result) }
    ensures write_fault { HasCause (K.faults out.old + K.faults err.old) (K.faults out.new + K.faults err.new) (result ≡ 4) }
{
    answer(alloc, words, link, out, err)
}

/// Does what the words ask for; the status.
fn answer<L: Link, K: Sink>(
    alloc: Global,
    words: &[String],
    link: &mut L,
    out: &mut K,
    err: &mut K,
) -> u8
    ensures ran { ClientRan (request_of (map string_bytes words.now)) (L.exchanges link.old) (L.exchanges link.new) result
        (K.written out.old) (K.written out.new) (K.written err.old) (K.written err.new) }
    ensures write_fault { HasCause (K.faults out.old + K.faults err.old) (K.faults out.new + K.faults err.new) (result ≡ 4) }
{
    match read_request(alloc, words) {
        Ok(request) => run(alloc, &request, link, out, err),
        Err(RequestFault::NoMemory) => Stop::NoMemory.status(),
        Err(fault) => refuse(alloc, &fault, err),
    }
}

/// Runs what is asked for; the status.
fn run<L: Link, K: Sink>(
    alloc: Global,
    request: &Request,
    link: &mut L,
    out: &mut K,
    err: &mut K,
) -> u8
    ensures ran { RequestRan request.now (L.exchanges link.old) (L.exchanges link.new) result
        (K.written out.old) (K.written out.new) (K.written err.old) (K.written err.new) }
    ensures write_fault { HasCause (K.faults out.old + K.faults err.old) (K.faults out.new + K.faults err.new) (result ≡ 4) }
{
    match request {
        Request::Command(command) => run_command(alloc, command, link, out, err),
        Request::Debug(question) => look(alloc, question, link, out),
    }
}

/// Runs a command of `vos` or `pts`; the status.
fn run_command<L: Link, K: Sink>(
    alloc: Global,
    request: &CommandRequest,
    link: &mut L,
    out: &mut K,
    err: &mut K,
) -> u8
    ensures ran { Commanded (tool_name request.now.tool) (course_of request.now.tool request.now.words) (asker_of request.now)
        (L.exchanges link.old) (L.exchanges link.new) result
        (K.written out.old) (K.written out.new) (K.written err.old) (K.written err.new) }
    ensures write_fault { HasCause (K.faults out.old + K.faults err.old) (K.faults out.new + K.faults err.new) (result ≡ 4) }
{
    let hosts = request.hosts.as_slice();
    match request.tool {
        Tool::Vos => run_vos(alloc, &request.words, hosts, link, out, err).status,
        Tool::Pts => run_pts(alloc, &request.words, hosts, link, out, err).status,
    }
}

/// Writes why the words are refused; the status.
fn refuse<K: Sink>(alloc: Global, fault: &RequestFault, err: &mut K) -> u8
    ensures said { Declines (fault_line fault.now) result (K.written err.old) (K.written err.new) }
    ensures write_fault { HasCause (K.faults err.old) (K.faults err.new) (result ≡ 4) }
{
    match say_fault(alloc, fault, err) {
        Ok(()) => BAD_WORDS,
        Err(stop) => stop.status(),
    }
}

/// Writes the line of a fault.
fn say_fault<K: Sink>(alloc: Global, fault: &RequestFault, err: &mut K) -> Result<(), Stop>
    ensures said { SaysFault result (K.written err.old) (K.written err.new) (fault_line fault.now) }
    ensures cause { HasCause (K.faults err.old) (K.faults err.new) (result ≡ Err Stop.WriteFault) }
{
    let text = fault_line(alloc, fault)?;
    say(err, text.as_bytes())
}

/// The line of a fault, with its end.
fn fault_line(alloc: Global, fault: &RequestFault) -> Result<String, NoMemory>
    ensures { IfOk result (λ text. string_bytes text ≡ fault_line fault.now) }
{
    let mut text = String::new(alloc);
    writeln!(text, "{}", fault)?;
    Ok(text)
}
