//! That a server may go to another thread. Nothing here is called: the types are what is checked.
use crate::nodes::Node;
use db_image::DraftService;
use disk_base::{FileDisk, Mirrored};
use server_state::{Outputs, State};

/// Takes only what may go to another thread.
fn crosses<T: Send>() {}

/// A server over files that are in memory too goes to another thread, and what it keeps and puts out.
fn servers_cross<V: DraftService + Send>() {
    crosses::<Node<Mirrored<FileDisk>, V>>();
    crosses::<State>();
    crosses::<Outputs>();
}
