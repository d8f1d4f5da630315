//! A server of a running cell.
ghost use Rattle.std.specs.Prelude.{◌≡◌};
ghost use Rattle.cell_sites.specs.Sites.{server_disk};

use db_image::DraftWords;
use disk_base::{Disk, StopDisk};
use ubik_node::Node;

/// A server, with its disk.
#[derive(Drop)]
pub enum Server<D: Disk, V> {
    /// It is down.
    Down(D),
    /// It is up, or halted.
    Up(Node<D, V>),
}

impl<D: StopDisk, V: DraftWords> Server<D, V> {
    /// The disk, with the server taken down.
    pub(crate) fn close(self) -> D
        ensures { result ≡ server_disk self }
    {
        match self {
            Server::Down(disk) => disk,
            Server::Up(node) => node.close(),
        }
    }
}

/// A server with its clock, in seconds.
#[derive(Drop)]
pub struct Site<D: Disk, V> {
    pub clock: u32,
    pub server: Server<D, V>,
}
