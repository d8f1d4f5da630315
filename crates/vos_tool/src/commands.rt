//! A command of `vos`, from its words to its end.
ghost use Rattle.std.specs.Prelude.{◌≡◌, ◌+◌, codes};
ghost use Rattle.disk_base.specs.Count.{HasCause};
ghost use Rattle.tool_base.specs.Ending.{Commanded};
ghost use Rattle.tool_base.specs.Running.{Ran, ToldSome};
ghost use Rattle.vos_tool.specs.Command.{HasLowId, asker, command_text, vos_course, vos_text};

use crate::adding::add_entry;
use crate::addresses::{change_address, list_addresses};
use crate::changing::change;
use crate::deleting::delete_entries;
use crate::listing::{Filter, list, unlock_all};
use crate::locks::{lock, unlock};
use crate::sites::SiteChange;
use afs_commands::{ToolCommand, VosCommand};
use afs_words::Words;
use disk_base::Sink;
use io_base::Link;
use std::alloc::Global;
use tool_base::{Client, Stop, ToolEnd, say, say_end};
use ubik_types::{Bytes, Host};

/// The port of the location database.
pub const PORT: u16 = 7003;

/// Runs a command of `vos`: asks its calls of the hosts, in their order, and writes its text to `out`, or the line of
/// its end to `err`.
pub fn run_vos<L: Link, K: Sink>(
    alloc: Global,
    words: &Words,
    hosts: &[Host],
    link: &mut L,
    out: &mut K,
    err: &mut K,
) -> ToolEnd
    ensures command { Commanded (codes "vos") (vos_course words.now) (asker hosts.now) (L.exchanges link.old) (L.exchanges link.new)
        result.status (K.written out.old) (K.written out.new) (K.written err.old) (K.written err.new) }
    ensures cause { HasCause (K.faults out.old + K.faults err.old) (K.faults out.new + K.faults err.new) (result.status ≡ 4) }
{
    let mut client = Client::new(alloc, hosts, PORT);
    let end = run(&mut client, link, words, out);
    let left = say_end(alloc, "vos", err, end);
    ToolEnd::of(left)
}

/// Asks the calls of a command, and writes its text.
fn run<L: Link, K: Sink>(
    client: &mut Client<'_>,
    link: &mut L,
    words: &Words,
    out: &mut K,
) -> Result<(), Stop>
    ensures told { ToldSome (vos_course words.now) client.old (L.exchanges link.old) (L.exchanges link.new)
        (K.written out.old) (K.written out.new) result }
    ensures cause { HasCause (K.faults out.old) (K.faults out.new) (result ≡ Err Stop.WriteFault) }
{
    let text = text_of(client, link, words)?;
    say(out, text.as_slice())
}

/// The text of a command, once its calls were asked. A command of `pts` asks and writes nothing.
fn text_of<L: Link>(client: &mut Client<'_>, link: &mut L, words: &Words) -> Result<Bytes, Stop>
    ensures { Ran (vos_text words.now) client.old client.new (L.exchanges link.old) (L.exchanges link.new) result }
{
    match words.command() {
        ToolCommand::Vos(command) => command_text(client, link, command),
        ToolCommand::Pts(_) => Ok(Bytes::new(Vec::new(client.alloc()))),
    }
}

/// The text of a command of `vos`, once its calls were asked.
fn command_text<L: Link>(
    client: &mut Client<'_>,
    link: &mut L,
    command: &VosCommand,
) -> Result<Bytes, Stop>
    requires { HasLowId command.now }
    ensures { Ran (command_text command.now) client.old client.new (L.exchanges link.old) (L.exchanges link.new) result }
{
    match command {
        VosCommand::AddEntry { name, place, id } => add_entry(
            client,
            link,
            name.as_slice(),
            *place,
            *id,
        ),
        VosCommand::ListVldb {
            volume,
            sites,
            locked,
            style,
        } => list(client, link, volume, Filter::of(*sites, *locked), *style),
        VosCommand::Lock { volume } => lock(client, link, volume),
        VosCommand::Unlock { volume } => unlock(client, link, volume),
        VosCommand::UnlockVldb { sites } => unlock_all(client, link, Filter::of(*sites, true)),
        VosCommand::DelEntry { volumes } => delete_entries(client, link, volumes.as_slice()),
        VosCommand::AddSite { place, volume } => change(
            client,
            link,
            SiteChange::Add,
            *place,
            volume,
        ),
        VosCommand::RemSite { place, volume } => change(
            client,
            link,
            SiteChange::Remove,
            *place,
            volume,
        ),
        VosCommand::ChangeLoc { place, volume } => change(
            client,
            link,
            SiteChange::Move,
            *place,
            volume,
        ),
        VosCommand::ListAddrs => list_addresses(client, link),
        VosCommand::ChangeAddr { from, to } => change_address(client, link, *from, *to),
    }
}
