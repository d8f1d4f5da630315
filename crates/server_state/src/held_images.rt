//! The image of a server as contracts see it. The server keeps none in memory: its disk holds it.
ghost use Rattle.std.specs.Prelude.{◌≡◌, List, ℕ, [], false, length};
ghost use Rattle.ubik_store.specs.Store.{IsSound};
ghost use Rattle.server_state.specs.Held.{held_image};

use disk_base::Disk;
use ghost_values::{Ghost, Says};
use std::marker::Model;
use ubik_store::Store;

/// What contracts see: bytes.
struct Seen;

impl Model for Seen {
    ghost Value = { List ℕ };

    ghost view = { λ _. [] };
}

/// The image that a store holds: zero bytes where its disk does not tell its files. Nothing can ask for more of it than its length.
#[derive(Drop)]
pub struct HeldImage {
    len: u32,
    bytes: Ghost<Seen>,
    ghost length: { length bytes.value ≡ len },
}

impl Model for HeldImage {
    ghost Value = { List ℕ };

    ghost view = { λ image. image.bytes.value };
}

struct InFiles;

impl<D: Disk> Says<Store<D>, Seen> for InFiles {
    ghost says = { λ store. held_image (D.files store.disk) store.len };
}

impl HeldImage {
    /// The image of a store that has not failed.
    pub fn of<D: Disk>(store: &Store<D>) -> HeldImage
        requires sound { IsSound D.Disk store.now }
        requires fresh { store.now.failed ≡ false }
        ensures { result ≡ held_image (D.files store.now.disk) store.now.len }
    {
        HeldImage {
            len: store.len(),
            bytes: Ghost::of::<Store<D>, InFiles>(store),
        }
    }

    /// Its length, in bytes.
    pub fn len(&self) -> u32
        ensures { result ≡ length self.now }
    {
        self.len
    }
}
