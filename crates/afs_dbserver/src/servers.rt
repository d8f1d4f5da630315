//! The program over its words, its folder, its port, and the real clock.
ghost use Rattle.std.specs.Prelude.{◌<◌, length, IfOk};
ghost use Rattle.disk_base.specs.Crash.{Only};
ghost use Rattle.disk_base.specs.Mirrored.{mirrored_files, mirrored_may_leave};

use crate::texts::{BAD_FILES, CANNOT_OPEN, NO_MEMORY, asked_text};
use cell_script::write_whole;
use disk_base::{FileDisk, MirrorFault, Mirrored, MostBytes, OpenFault, Refused, Sink};
use node_server::{Database, ServerKind, ServerWords, read_words, say_end};
use page_file::MAX_DATABASE_LEN;
use std::alloc::Global;
use std::env::{Args, Env};
use std::fs::{File, Files};
use std::io::{self, ErrorKind};
use std::net::Net;
use std::sync::Wait;
use std::time::Clock;
use tcp_net::{NetFault, TcpNet};
use ubik_types::{Cell, Host, NoMemory};

/// The most bytes of the log that are read: far more than those of the greatest transaction.
const MAX_LOG_LEN: u64 = 268_435_456;

/// The most bytes of a word that the system hands over.
const MAX_WORD: usize = 131_072;

/// The status where the folder or the port cannot be opened.
const NOT_OPENED: u8 = 11;

/// Why a server is not run.
enum Fault {
    CannotOpen,
    BadFiles,
    NoMemory,
}

impl From<OpenFault> for Fault {
    fn from(fault: OpenFault) -> Fault {
        match fault {
            OpenFault::Failed => Fault::CannotOpen,
            OpenFault::NoMemory => Fault::NoMemory,
        }
    }
}

impl From<NetFault> for Fault {
    fn from(fault: NetFault) -> Fault {
        match fault {
            NetFault::Failed => Fault::CannotOpen,
            NetFault::NoMemory => Fault::NoMemory,
        }
    }
}

impl From<MirrorFault> for Fault {
    fn from(fault: MirrorFault) -> Fault {
        match fault {
            MirrorFault::DiskFault => Fault::CannotOpen,
            MirrorFault::TooLong { .. } => Fault::BadFiles,
            MirrorFault::NoMemory => Fault::NoMemory,
        }
    }
}

/// What the words of the program ask for.
pub enum Asked<R: Wait + Clock + Net + Drop> {
    /// Nothing more: it has been answered, with this status.
    Answered(u8),
    /// Words that do not fit, which the top call refuses.
    Refused { words: Vec<String> },
    /// A server, whose folder and port are open.
    Served(Ready<R>),
}

/// A server that is to run: its words, its files, its net, its database, its own address, and its place in the cell.
#[derive(Drop)]
pub struct Ready<R: Wait + Clock + Net + Drop> {
    pub words: Vec<String>,
    pub disk: Mirrored<FileDisk>,
    pub net: TcpNet<R>,
    pub database: Database,
    pub host: Host,
    pub place: u64,
    ghost settled: { Only (mirrored_files disk) (mirrored_may_leave disk) },
}

/// What the program is to do that is given these words, its name before them. A word that is not UTF-8 does not fit.
pub fn read_given<R: Wait + Clock + Net + Files<File = File> + Env + Drop + Copy, O: Sink, E: Sink>(
    rt: &R,
    alloc: Global,
    given: io::Result<Args>,
    out: &mut O,
    err: &mut E,
) -> Asked<R> {
    let args = match given {
        Ok(args) => args,
        Err(error) if error.kind() == ErrorKind::InvalidData => {
            return Asked::Answered(say_no_text(rt, alloc, err));
        }
        Err(_) => return no_memory(err),
    };
    let Ok(words) = behind_name(alloc, args) else {
        return no_memory(err);
    };
    if let Some(text) = asked_text(&words) {
        return Asked::Answered(say(out, text, 0));
    }
    match read_words(alloc, &words) {
        Ok(fitting) => opened(rt, alloc, words, &fitting, err),
        Err(_) => Asked::Refused { words },
    }
}

/// Says that memory ran out; the status.
pub fn say_no_memory<E: Sink>(err: &mut E) -> u8 {
    say(err, NO_MEMORY, ServerKind::NoMemory.status())
}

/// Says which word is no text; the status.
fn say_no_text<R: Env, E: Sink>(rt: &R, alloc: Global, err: &mut E) -> u8 {
    let Ok(place) = place_of_no_text(rt, alloc) else {
        return say_no_memory(err);
    };
    let kind = ServerKind::Words { place };
    say_end(&kind, err);
    kind.status()
}

/// The place of the first word that is not UTF-8, counted from 1.
fn place_of_no_text<R: Env>(rt: &R, alloc: Global) -> Result<u32, NoMemory> {
    let mut word = Vec::new(alloc);
    word.resize(MAX_WORD, 0)?;
    for place in 1..u32::MAX {
        let Ok(len) = rt.arg(place as usize, &mut word) else {
            return Ok(place);
        };
        if str::from_utf8(&word[..len]).is_err() {
            return Ok(place);
        }
    }
    Ok(u32::MAX)
}

fn no_memory<R: Wait + Clock + Net + Drop, E: Sink>(err: &mut E) -> Asked<R> {
    Asked::Answered(say_no_memory(err))
}

/// The words behind the name of the program, which is the first of these.
fn behind_name(alloc: Global, mut args: Args) -> Result<Vec<String>, NoMemory> {
    let _name = args.next();
    let mut words = Vec::new(alloc);
    for word in args {
        words.push(word)?;
    }
    Ok(words)
}

/// Prints a text; the status.
fn say<K: Sink>(out: &mut K, text: &str, status: u8) -> u8 {
    let _ = write_whole(out, text.as_bytes());
    status
}

/// Opens the folder and the port of words that fit, or says why not.
fn opened<R: Wait + Clock + Net + Files<File = File> + Drop + Copy, E: Sink>(
    rt: &R,
    alloc: Global,
    words: Vec<String>,
    fitting: &ServerWords,
    err: &mut E,
) -> Asked<R>
    requires { fitting.now.me < length fitting.now.cell }
{
    match open_server(rt, alloc, words, fitting) {
        Ok(ready) => {
            let ServerWords { database, cell, me } = fitting;
            say_listens(alloc, *database, cell.host(*me), err);
            Asked::Served(ready)
        }
        Err(Fault::CannotOpen) => Asked::Answered(say(err, CANNOT_OPEN, NOT_OPENED)),
        Err(Fault::BadFiles) => Asked::Answered(say(err, BAD_FILES, 9)),
        Err(Fault::NoMemory) => no_memory(err),
    }
}

fn open_server<R: Wait + Clock + Net + Files<File = File> + Drop + Copy>(
    rt: &R,
    alloc: Global,
    words: Vec<String>,
    fitting: &ServerWords,
) -> Result<Ready<R>, Fault>
    requires { fitting.now.me < length fitting.now.cell }
{
    let folder = words.get(1).map_or("", |word| word.as_str());
    let disk = open_disk(rt, alloc, folder)?;
    let ServerWords { database, cell, me } = fitting;
    let host = cell.host(*me);
    let Ok(peers) = others(alloc, cell, host) else {
        return Err(Fault::NoMemory);
    };
    let net = TcpNet::open(*rt, alloc, host, database.port(), &peers)?;
    let place = *me as u64;
    Ok(Ready {
        words,
        disk,
        net,
        database: *database,
        host,
        place,
    })
}

/// The disk over the files of a folder, which are then in memory too.
fn open_disk<R: Files<File = File>>(
    rt: &R,
    alloc: Global,
    folder: &str,
) -> Result<Mirrored<FileDisk>, Fault>
    ensures { IfOk result (λ disk. Only (mirrored_files disk) (mirrored_may_leave disk)) }
{
    let disk = FileDisk::open(rt, alloc, folder)?;
    let most = MostBytes {
        database: MAX_DATABASE_LEN,
        log: MAX_LOG_LEN,
        incoming: MAX_DATABASE_LEN,
    };
    match Mirrored::open(alloc, disk, most) {
        Ok(disk) => Ok(disk),
        Err(Refused { why, .. }) => Err(Fault::from(why)),
    }
}

/// The other servers of a cell.
fn others(alloc: Global, cell: &Cell, own: Host) -> Result<Vec<Host>, NoMemory> {
    let mut hosts = Vec::new(alloc);
    for place in 0..cell.len() {
        let host = cell.host(place);
        if host != own {
            hosts.push(host)?;
        }
    }
    Ok(hosts)
}

/// Prints where the server listens. For want of memory it prints nothing.
fn say_listens<E: Sink>(alloc: Global, database: Database, host: Host, err: &mut E) {
    let mut line = String::new(alloc);
    let spelled = writeln!(
        line,
        "afs_dbserver: {} at {} port {}",
        database.name(),
        host,
        database.port()
    );
    if spelled.is_ok() {
        let _ = write_whole(err, line.as_bytes());
    }
}
