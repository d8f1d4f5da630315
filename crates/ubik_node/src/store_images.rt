//! The image of a store, of which a database reads what it needs.
ghost use Rattle.std.specs.Prelude.{None};

use db_image::{ImageRead, ReadEnd};
use disk_base::Disk;
use ghost_values::Tally;
use std::marker::Model;
use ubik_store::Store;

/// The image of a store that is lent. After a read has failed the store has failed, and so does every other read. It is made as a
/// literal: a caller that lends the store to a function would know nothing of it after.
#[derive(Drop)]
pub struct StoreImage<'a, D: Disk> {
    pub store: &'a mut Store<D>,
    /// How many reads have failed: for contracts alone. Code asks the store whether it has failed.
    pub faults: Tally,
}

impl<'a, D: Disk> Model for StoreImage<'a, D> {
    ghost use Rattle.ubik_node.specs.StoreImages.{IsImage, Lent};

    ghost Value = { Lent D };

    ghost view = { λ i. record { store = i.store; faults = i.faults } };

    ghost invariant = { λ i. IsImage D.Disk (record { store = i.store; faults = i.faults }) };
}

impl<'a, D: Disk> ImageRead for StoreImage<'a, D> {
    ghost use Rattle.ubik_node.specs.StoreImages.{told_image, ComesByReads, comes_itself, comes_then};

    ghost held = { λ image. told_image (D.tells image.store.now.disk) (D.files image.store.now.disk) };

    ghost size = { λ image. image.store.now.len };

    ghost faults = { λ image. image.faults };

    ghost asked = { λ _. None };

    ghost came = { ComesByReads D.Disk };

    ghost comes_same = { comes_itself D.Disk };

    ghost comes_on = { comes_then D.Disk };

    fn len(&self) -> u32 {
        self.store.len()
    }

    fn read(&mut self, at: u32, buf: &mut [u8]) -> ReadEnd {
        if self.store.read(at, buf).is_ok() {
            return ReadEnd::Done;
        }
        self.faults = self.faults.next();
        ReadEnd::DiskFault
    }
}
