//! How a server ended, with its disk and its run.
use disk_base::Disk;
use server_texts::ServerKind;

/// The run of a server that was opened: the moment of its opening, in seconds, and the journal of its steps.
#[derive(Drop)]
pub struct ServerRun<J> {
    pub opened: u32,
    pub journal: J,
}

/// How a server ended, with its disk. There was no run where the server was not opened.
#[derive(Drop)]
pub struct ServerEnd<D: Disk, J> {
    pub status: u8,
    pub kind: ServerKind,
    pub disk: D,
    pub run: Option<ServerRun<J>>,
}
