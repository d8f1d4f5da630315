//! What a walk along a chain looks for.

use db_blocks::Block;
use db_chains::StopAt;
use entry_scans::{entry_in, kind_of};
use prdb_layout::ENTRY;

/// What a walk along a chain looks for.
#[derive(Clone, Copy)]
pub(crate) enum Sought<'a> {
    /// The entry of a name.
    Name(&'a [u8]),
    /// The entry of an id.
    Id(i32),
}

impl<'a> StopAt for Sought<'a> {
    ghost use Rattle.prdb_finds.specs.Sought.{is_sought};

    ghost test = { is_sought };

    fn stops(&self, _word: u32, block: &Block) -> bool {
        match *self {
            Sought::Name(name) => kind_of(block) == ENTRY && entry_in(block).name == name,
            Sought::Id(id) => kind_of(block) == ENTRY && entry_in(block).id == id,
        }
    }
}
