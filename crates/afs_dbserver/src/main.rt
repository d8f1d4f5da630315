//! `afs_dbserver`: a server of the volume location or the protection database, over the files of a folder and the net. With the one word
//! `--help` or `--version` it prints that instead.
#![tactic(auto)]

ghost use Rattle.disk_base.specs.Crash.{Only};
ghost use Rattle.disk_base.specs.Mirrored.{mirrored_files, mirrored_may_leave};

mod beneath;
mod channels;
mod first_turns;
mod notes;
mod recording;
mod servers;
mod texts;
mod watching;

use crate::beneath::Beneath;
use crate::channels::Channels;
use crate::first_turns::FirstTurns;
use crate::notes::{Sayer, write_notes};
use crate::recording::{Recording, audit_file, write_entries};
use crate::servers::{Asked, Ready, read_given, say_no_memory};
use crate::watching::{Own, watch};
use cell_script::write_whole;
use disk_base::{MemDisk, MemSink, WriterSink};
use io_base::{MemNet, NoSpawner, OpenGate, ThreadSpawner, WallClock};
use node_server::{server_over, server_top};
use server_diary::AuditedNet;
use server_station::GhostJournal;
use std::process::ExitCode;
use std::sync::atomic::AtomicBool;
use std::{env, io, thread};

// Only here the machine's own runtime may start threads, so the top call is made here.
fn main(rt: HostRuntime) -> ExitCode {
    let alloc = rt.alloc();
    let mut out = WriterSink::new(io::writer(&rt));
    let mut err = WriterSink::new(rt.stderr());
    let clock = WallClock::new(rt);
    let status = match read_given(&rt, alloc, env::args(&rt), &mut out, &mut err) {
        Asked::Answered(status) => status,
        Asked::Refused { words } => match MemDisk::new(alloc, &[]) {
            Ok(disk) => {
                let net = MemNet::new(rt, Vec::new(alloc));
                server_top(
                    &rt, alloc, &words, disk, &net, &clock, &NoSpawner, &OpenGate, &mut err,
                )
                .status
            }
            Err(_) => say_no_memory(&mut err),
        },
        Asked::Served(ready) => match Channels::open(alloc) {
            Ok(channels) => {
                let Ready {
                    words,
                    disk,
                    net,
                    database,
                    host,
                    place,
                } = ready;
                let Channels {
                    watched,
                    recorded,
                    texts,
                    told,
                    entries,
                    running,
                    over,
                    last,
                } = channels;
                let port = database.port();
                let own = Own { host, port };
                let file = audit_file(&rt, alloc);
                let is_missing = AtomicBool::new(false);
                let (near, shared, clock) = (&rt, &net, &clock);
                let (over, entries, is_missing, file) = (&over, &entries, &is_missing, &file);
                let ((), (status, last)) = thread::join(
                    near,
                    || write_notes(near, alloc, shared, &texts, &mut err),
                    move || -> (u8, MemSink)
                        requires { Only (mirrored_files disk) (mirrored_may_leave disk) }
                    {
                        thread::scope(
                            thread::scope_env(),
                            near,
                            |scope| -> (u8, MemSink)
                                requires { Only (mirrored_files disk) (mirrored_may_leave disk) }
                            {
                                let said = Sayer::new(near, alloc, watched);
                                let _ = scope.spawn(move || watch(
                                    near, alloc, clock, own, over, &said,
                                ));
                                let said = Sayer::new(near, alloc, recorded);
                                if let Some(file) = file {
                                    let _ = scope.spawn(move || {
                                        write_entries(near, file, entries, is_missing, &said)
                                    });
                                }
                                let recording = Recording::new(near, told, is_missing);
                                let recorder = file.as_ref().map(|_| &recording);
                                let beneath = Beneath(shared);
                                let net = AuditedNet::new(
                                    near, alloc, database, &beneath, clock, recorder,
                                );
                                let mut last = last;
                                let status = server_over(
                                    near,
                                    alloc,
                                    &words,
                                    disk,
                                    GhostJournal::new(),
                                    &net,
                                    clock,
                                    &ThreadSpawner,
                                    &FirstTurns { rt, place },
                                    &mut last,
                                )
                                .status;
                                drop(running);
                                (status, last)
                            },
                        )
                    },
                );
                let _ = write_whole(&mut err, last.written());
                status
            }
            Err(_) => say_no_memory(&mut err),
        },
    };
    ExitCode::from(status)
}
