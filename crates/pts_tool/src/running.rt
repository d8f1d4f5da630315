//! A whole command.
ghost use Rattle.std.specs.Prelude.{◌≡◌, ◌+◌, IfOk, codes, Err};
ghost use Rattle.disk_base.specs.Count.{HasCause};
ghost use Rattle.pts_tool.specs.Courses.{pts_course};
ghost use Rattle.pts_tool.specs.Plans.{tasks_of};
ghost use Rattle.tool_base.specs.Course.{Asker};
ghost use Rattle.tool_base.specs.Ending.{Commanded};
ghost use Rattle.tool_base.specs.Running.{ToldSome};

use crate::plans::tasks_of;
use crate::tasks::{Task, run_all};
use afs_commands::ToolCommand;
use afs_words::Words;
use disk_base::Sink;
use io_base::Link;
use std::alloc::Global;
use tool_base::{Client, Stop, ToolEnd, say_end};
use ubik_types::{Host, NoMemory};

/// The port of the servers of the protection database.
pub const PORT: u16 = 7002;

/// Does what the words of `pts` mean. Each call is asked of the hosts in their order, over the link; texts go to
/// `out`, and the line of a refusal, of hosts that give no answer, or of an unknown outcome to `err`.
///
/// Statuses: 0 the command is done, 1 it is refused, 3 no host took a call, 4 a sink failed, 5 memory ran out, 6 a call
/// that writes may have taken place. What was written before stays.
pub fn run_pts<L: Link, K: Sink>(
    alloc: Global,
    words: &Words,
    hosts: &[Host],
    link: &mut L,
    out: &mut K,
    err: &mut K,
) -> ToolEnd
    ensures commanded { let asker : Asker = record { hosts = hosts.now; port = PORT; number = 0 } in
        Commanded (codes "pts") (pts_course words.now) asker (L.exchanges link.old) (L.exchanges link.new) result.status
        (K.written out.old) (K.written out.new) (K.written err.old) (K.written err.new) }
    ensures cause { HasCause (K.faults out.old + K.faults err.old) (K.faults out.new + K.faults err.new) (result.status ≡ 4) }
{
    let mut client = Client::new(alloc, hosts, PORT);
    let end = run_words(&mut client, words, link, out);
    ToolEnd::of(say_end(alloc, "pts", err, end))
}

/// Works through the items that words mean.
fn run_words<L: Link, K: Sink>(
    client: &mut Client<'_>,
    words: &Words,
    link: &mut L,
    out: &mut K,
) -> Result<(), Stop>
    ensures told { ToldSome (pts_course words.now) client.old (L.exchanges link.old) (L.exchanges link.new)
        (K.written out.old) (K.written out.new) result }
    ensures cause { HasCause (K.faults out.old) (K.faults out.new) (result ≡ Err Stop.WriteFault) }
{
    let tasks = all_tasks(client.alloc(), words)?;
    run_all(client, link, tasks.as_slice(), out)
}

/// The items that words mean. A command of `vos` has none.
fn all_tasks(alloc: Global, words: &Words) -> Result<Vec<Task>, NoMemory>
    ensures { IfOk result (λ tasks. tasks.items ≡ tasks_of words.now) }
{
    match words.command() {
        ToolCommand::Pts(command) => tasks_of(alloc, command),
        ToolCommand::Vos(_) => Ok(Vec::new(alloc)),
    }
}
