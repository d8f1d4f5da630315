//! The text of a trace.
ghost use Rattle.std.specs.Prelude.{◌≡◌, ◌+◌, ◌<◌, ◌++◌, OnOk, IfSome, Option};
ghost use Rattle.std.specs.String.{string_bytes};
ghost use Rattle.cell_model.specs.NodeRule.{place_of};
ghost use Rattle.cell_model.specs.Step.{Evaluation};
ghost use Rattle.cell_model.specs.World.{seen_of_output};
ghost use Rattle.cell_runs.specs.ScriptDatabase.{script_database};
ghost use Rattle.cell_runs.specs.Trace.{FitsCall, FitsReply, Tells, Shows, phase_word, applied_word, version_text, number_in, kind_word, subject_text, packet_text, reply_text, showing_text, happening_text, item_text, mark_text, seen_of_mark, why_word, which_word, ending_text};

use crate::endings::{Ending, Which};
use cell_model::Output;
use cell_script::Why;
use db_image::DraftWords;
use ubik_calls::{Body, Packet, Reply};
use ubik_types::{Applied, Host, NoMemory, Phase, Version};

fn phase_word(phase: Phase) -> &'static str
    ensures { result.now ≡ phase_word phase }
{
    match phase {
        Phase::None => "none",
        Phase::Poll => "poll",
        Phase::Fetch => "fetch",
        Phase::Relabel => "relabel",
        Phase::Send => "send",
        Phase::Ready => "ready",
    }
}

fn applied_word(applied: Applied) -> &'static str
    ensures { result.now ≡ applied_word applied }
{
    match applied {
        Applied::No => "no",
        Applied::Unknown => "unknown",
    }
}

/// Adds a version.
fn tell_version(text: &mut String, version: Version) -> Result<(), NoMemory>
    ensures { OnOk result (string_bytes text.new ≡ string_bytes text.old ++ version_text version) }
{
    write!(text, "{}.{}", version.epoch, version.counter)?;
    Ok(())
}

/// The place of the server that has this host.
fn place_of(hosts: &[Host], host: Host) -> Option<usize>
    ensures { result ≡ place_of hosts.now host }
{
    hosts.iter().position(|other| other.0 == host.0)
}

/// The number of the server that has this host, counted from 1; 0 where the cell has no such server.
fn number_of(hosts: &[Host], host: Host) -> u64
    ensures { result ≡ number_in (place_of hosts.now host) }
{
    match place_of(hosts, host) {
        Some(place) => place as u64 + 1,
        None => 0,
    }
}

/// The word of a kind of packet. A vote has one for each answer.
fn kind_word(body: &Body) -> &'static str
    ensures { result.now ≡ kind_word body.now }
{
    match body {
        Body::Beacon { .. } => "beacon",
        Body::Vote { yes: true, .. } => "yes",
        Body::Vote { yes: false, .. } => "no",
        Body::GetVersion { .. } => "getversion",
        Body::VersionIs { .. } => "versionis",
        Body::GetPiece { .. } => "getpiece",
        Body::Piece { .. } => "piece",
        Body::SendPiece { .. } => "sendpiece",
        Body::PieceKept { .. } => "piecekept",
        Body::SetVersion { .. } => "setversion",
        Body::Begin { .. } => "begin",
        Body::PutPiece { .. } => "putpiece",
        Body::Commit { .. } => "commit",
        Body::Abort { .. } => "abort",
        Body::VersionKept { .. } => "versionkept",
    }
}

/// Adds the start, the poll or the version that a packet names.
fn tell_subject(text: &mut String, body: &Body) -> Result<(), NoMemory>
    ensures { OnOk result (string_bytes text.new ≡ string_bytes text.old ++ subject_text body.now) }
{
    match body {
        Body::Vote { start, .. } => write!(text, "{start}")?,
        Body::GetVersion { poll } => write!(text, "{poll}")?,
        Body::Beacon { version, .. }
        | Body::VersionIs { version, .. }
        | Body::GetPiece { version, .. }
        | Body::Piece { version, .. }
        | Body::SendPiece { version, .. }
        | Body::PieceKept { version, .. }
        | Body::VersionKept { version } => tell_version(text, *version)?,
        Body::SetVersion { new, .. }
        | Body::Begin { new, .. }
        | Body::PutPiece { new, .. }
        | Body::Commit { new, .. }
        | Body::Abort { new } => tell_version(text, *new)?,
    }
    Ok(())
}

/// Adds a packet, which has this number.
fn tell_packet(
    text: &mut String,
    hosts: &[Host],
    number: u32,
    packet: &Packet,
) -> Result<(), NoMemory>
    ensures { OnOk result (string_bytes text.new ≡ string_bytes text.old ++ packet_text hosts.now number packet.now) }
{
    let from = number_of(hosts, packet.from);
    let to = number_of(hosts, packet.to);
    let kind = kind_word(&packet.body);
    write!(text, "packet {number} {from}>{to} {kind} ")?;
    tell_subject(text, &packet.body)
}

/// Adds a reply, as it stands behind the number of its call and its server. `call` has the bytes of the call that an Ok answers.
fn tell_reply<V: DraftWords>(
    text: &mut String,
    hosts: &[Host],
    reply: &Reply,
    call: &[u8],
) -> Result<(), NoMemory>
    ensures { OnOk result ((e : Option Evaluation) → FitsReply reply.now call.now e →
        string_bytes text.new ≡ string_bytes text.old ++ reply_text (script_database V.standing.database V.words) hosts.now reply.now e) }
{
    match reply {
        Reply::Ok(answer) => {
            text.push_str(" ok")?;
            V::tell_answer(text, call, answer.as_slice())?;
        }
        Reply::Rule(number) => write!(text, " rule {number}")?,
        Reply::NoQuorum {
            until,
            phase,
            applied,
            ..
        } => {
            let phase = phase_word(*phase);
            let applied = applied_word(*applied);
            write!(text, " noquorum {until} {phase} {applied}")?;
        }
        Reply::NotSync { host, .. } => {
            let number = number_of(hosts, *host);
            write!(text, " notsync {number}")?;
        }
        Reply::LineFull { holder } => write!(text, " linefull {holder}")?,
        Reply::TooLarge { bytes } => write!(text, " toolarge {bytes}")?,
        Reply::Malformed => text.push_str(" malformed")?,
        Reply::DiskFault => text.push_str(" diskfault")?,
        Reply::BadRecord { at } => write!(text, " badrecord {at}")?,
        Reply::NoMemory => text.push_str(" nomemory")?,
    }
    Ok(())
}

/// Adds the line of an output of a server of the cell of these hosts. The server is counted from 0 and printed by its number
/// from 1; a packet has the number that is given; `call` has the bytes of the call that an Ok answers. After an `Err` a part of
/// the line may stand at the end.
pub fn tell_output<V: DraftWords>(
    text: &mut String,
    hosts: &[Host],
    server: u32,
    packet: u32,
    output: &Output,
    call: &[u8],
) -> Result<(), NoMemory>
    requires { server < 20 }
    ensures { OnOk result ((e : Option Evaluation) → FitsCall output.now call.now e → string_bytes text.new ≡ string_bytes text.old
        ++ item_text (script_database V.standing.database V.words) hosts.now (Tells (seen_of_output server packet output.now e))) }
{
    let number = server + 1;
    match output {
        Output::Send(sent) => tell_packet(text, hosts, packet, sent)?,
        Output::Reply { id, reply } => {
            write!(text, "reply {id} {number}")?;
            tell_reply::<V>(text, hosts, reply, call)?;
        }
        Output::Announce { version } => {
            write!(text, "announce {number} ")?;
            tell_version(text, *version)?;
        }
    }
    text.push('\n')?;
    Ok(())
}

/// What is seen of a server or of a packet, beside what a server puts out. Servers are counted from 0.
#[derive(Clone, Copy)]
pub enum Mark {
    /// The packet of this number came to a server that is down.
    Lost { packet: u32 },
    /// The server stopped in a step.
    Stops { server: u32 },
    /// The server was halted, since its disk failed.
    Halts { server: u32 },
    /// The server is up again, with its durable version.
    Restarts { server: u32, version: Version },
    /// The server stays down, since its disk failed in the opening.
    StaysDown { server: u32 },
}

/// Adds the line of what is seen beside outputs. After an `Err` a part of the line may stand at the end.
pub fn tell_mark(text: &mut String, mark: Mark) -> Result<(), NoMemory>
    ensures { OnOk result (string_bytes text.new ≡ string_bytes text.old ++ mark_text mark) }
{
    match mark {
        Mark::Lost { packet } => write!(text, "lost {packet}")?,
        Mark::Stops { server } => write!(text, "stopped {}", u64::from(server) + 1)?,
        Mark::Halts { server } => write!(text, "halted {}", u64::from(server) + 1)?,
        Mark::Restarts { server, version } => {
            write!(text, "restarted {} ", u64::from(server) + 1)?;
            tell_version(text, version)?;
        }
        Mark::StaysDown { server } => {
            write!(text, "restarted {} diskfault", u64::from(server) + 1)?;
        }
    }
    text.push('\n')?;
    Ok(())
}

/// What is shown of a server that is up.
#[derive(Clone, Copy)]
pub struct Showing {
    /// The version of its database; of a halted server, as the rest, that from before its halt.
    pub version: Version,
    /// The phase of its recovery.
    pub phase: Phase,
    /// The end of its lease in seconds, also of one that is over; 0 where there is none.
    pub until: u32,
    /// The length of its image in bytes, also during a write in flight.
    pub len: u32,
}

/// Adds what is shown of a server, if it is up.
fn tell_showing(text: &mut String, showing: Option<Showing>) -> Result<(), NoMemory>
    ensures { OnOk result (string_bytes text.new ≡ string_bytes text.old ++ showing_text showing) }
{
    let Some(showing) = showing else {
        text.push_str(" down")?;
        return Ok(());
    };
    text.push_str(" version ")?;
    tell_version(text, showing.version)?;
    let phase = phase_word(showing.phase);
    write!(
        text,
        " phase {phase} until {} length {}",
        showing.until, showing.len
    )?;
    Ok(())
}

/// Adds the line that shows a server, counted from 0, at its clock in seconds. After an `Err` a part of it may stand at the end.
pub fn tell_show<V: DraftWords>(
    text: &mut String,
    hosts: &[Host],
    server: u32,
    clock: u32,
    showing: Option<Showing>,
) -> Result<(), NoMemory>
    requires { server < 20 }
    ensures { OnOk result (string_bytes text.new ≡ string_bytes text.old
        ++ item_text (script_database V.standing.database V.words) hosts.now (Shows server clock showing)) }
{
    write!(text, "show {} clock {clock}", server + 1)?;
    tell_showing(text, showing)?;
    text.push('\n')?;
    Ok(())
}

fn why_word(why: Why) -> &'static str
    ensures { result.now ≡ why_word why }
{
    match why {
        Why::Syntax => "syntax",
        Why::Number => "number",
        Why::Cell => "cell",
        Why::Server => "server",
        Why::State => "state",
        Why::Packet => "packet",
        Why::Skew => "skew",
    }
}

fn which_word(which: Which) -> &'static str
    ensures { result.now ≡ which_word which }
{
    match which {
        Which::Lines => "lines",
        Which::Packets => "packets",
        Which::PacketBytes => "packetbytes",
    }
}

/// Adds the last line of the trace of a script that ended at this line, counted from 1. After an `Err` a part of the
/// line may stand at the end.
pub fn tell_ending(text: &mut String, line: u32, ending: Ending) -> Result<(), NoMemory>
    ensures { OnOk result (string_bytes text.new ≡ string_bytes text.old ++ ending_text line ending) }
{
    match ending {
        Ending::Refused(why) => {
            let why = why_word(why);
            writeln!(text, "refused line {line} {why}")?;
        }
        Ending::Limit(which) => {
            let which = which_word(which);
            writeln!(text, "limit line {line} {which}")?;
        }
    }
    Ok(())
}
