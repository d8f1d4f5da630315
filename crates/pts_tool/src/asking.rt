//! A call of the protection database, asked of the hosts.
ghost use Rattle.std.specs.Prelude.{◌≡◌, true, IfOk};
ghost use Rattle.std.specs.List.{list_all};
ghost use Rattle.pt_calls.specs.Calls.{call_kind, spelling};
ghost use Rattle.pt_calls.specs.Writes.{is_write};
ghost use Rattle.pts_tool.specs.Asking.{is_short, has_spelling, taken_from, asks};
ghost use Rattle.tool_base.specs.Asking.{asks_call};
ghost use Rattle.tool_base.specs.Running.{Ran};

use crate::answers::FromAnswer;
use io_base::Link;
use pt_calls::{MAX_LIST, MAX_NAME, PtCall, read_answer, spell_call};
use std::alloc::Global;
use tool_base::{Client, Reads, Refusal, Stop};
use ubik_types::{Bytes, NoMemory};

/// Reads the answers to a call.
#[derive(Drop)]
struct AnswersTo<'a> {
    call: &'a PtCall,
}

impl<'a, A: FromAnswer> Reads<A> for AnswersTo<'a> {
    ghost use Rattle.pts_tool.specs.Asking.{taken_from};

    ghost reads = { λ answers bytes. taken_from (A.taken answers.call.now) answers.call.now bytes };

    ghost keeps = { λ answers found. Unit {0} };

    fn read(&self, alloc: Global, bytes: &[u8]) -> Result<Option<A>, NoMemory> {
        match read_answer(alloc, self.call.kind(), bytes)? {
            Some(answer) => Ok(A::take(self.call, answer)),
            None => Ok(None),
        }
    }
}

/// Asks a call of the hosts, and takes from the answer what it is asked for. A call that is too long for its grammar
/// is not asked.
pub(crate) fn ask<L: Link, A: FromAnswer>(
    client: &mut Client<'_>,
    link: &mut L,
    call: &PtCall,
) -> Result<A, Stop>
    ensures { Ran (asks A.taken call.now) client.old client.new (L.exchanges link.old) (L.exchanges link.new) result }
{
    if has_spelling(call) {
        ask_spelled(client, link, call)
    } else {
        Err(Stop::Refused(Refusal::Malformed))
    }
}

/// Asks a call that has a spelling.
fn ask_spelled<L: Link, A: FromAnswer>(
    client: &mut Client<'_>,
    link: &mut L,
    call: &PtCall,
) -> Result<A, Stop>
    requires { has_spelling call.now ≡ true }
    ensures { Ran (asks_call (is_write (call_kind call.now)) (taken_from (A.taken call.now) call.now) (spelling call.now))
        client.old client.new (L.exchanges link.old) (L.exchanges link.new) result }
{
    let spelled = spell_call(client.alloc(), call)?;
    client.ask(link, call.kind().is_write(), spelled, &AnswersTo { call })
}

/// Whether a call has a spelling: its names and lists are no longer than the grammar has them.
fn has_spelling(call: &PtCall) -> bool
    ensures { result ≡ has_spelling call.now }
{
    match call {
        PtCall::NewEntry { name, .. }
        | PtCall::INewEntry { name, .. }
        | PtCall::ChangeEntry { name, .. } => is_short(name),
        PtCall::NameToId { names } => {
            names.as_slice().len() <= MAX_LIST as usize && are_short(names.as_slice())
        }
        PtCall::IdToName { ids } => ids.as_slice().len() <= MAX_LIST as usize,
        _ => true,
    }
}

/// Whether all names are no longer than a call's names may be.
fn are_short(names: &[Bytes]) -> bool
    ensures { result ≡ list_all is_short names.now }
{
    names.iter().all(|name| is_short(name))
}

/// Whether a name is no longer than a call's names may be.
fn is_short(name: &Bytes) -> bool
    ensures { result ≡ is_short name.now }
{
    name.as_slice().len() <= MAX_NAME as usize
}
