//! What the threads of the program hand to one another.
use crate::notes::WAITING_TEXTS;
use crossbeam_channel::{Receiver, Sender, bounded, unbounded};
use disk_base::MemSink;
use std::alloc::Global;
use ubik_types::{Bytes, NoMemory};

/// The ends of the channels, and what the server says last.
#[derive(Drop)]
pub struct Channels {
    /// What the thread that watches says, and the one that writes entries.
    pub watched: Sender<Vec<u8>>,
    pub recorded: Sender<Vec<u8>>,
    /// What is written on standard error.
    pub texts: Receiver<Vec<u8>>,
    /// Who changed what.
    pub told: Sender<Bytes>,
    pub entries: Receiver<Bytes>,
    /// Held by the server for as long as it runs.
    pub running: Sender<()>,
    pub over: Receiver<()>,
    pub last: MemSink,
}

impl Channels {
    pub fn open(alloc: Global) -> Result<Channels, NoMemory> {
        let (watched, texts) = bounded(alloc, WAITING_TEXTS)?;
        let recorded = watched.clone()?;
        let (told, entries) = unbounded(alloc)?;
        let (running, over) = bounded(alloc, 1)?;
        Ok(Channels {
            watched,
            recorded,
            texts,
            told,
            entries,
            running,
            over,
            last: MemSink::new(alloc, &[])?,
        })
    }
}
