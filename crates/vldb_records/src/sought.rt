//! What a walk along a chain looks for.

use db_blocks::Block;
use db_chains::StopAt;
use vldb_entries::{has_id, has_name};

/// What a walk along a chain looks for.
#[derive(Clone, Copy)]
pub(crate) enum Sought<'a> {
    /// The entry of a name.
    Name(&'a [u8]),
    /// The entry that has this id.
    Id(u32),
}

impl<'a> StopAt for Sought<'a> {
    ghost use Rattle.vldb_records.specs.Sought.{is_sought};

    ghost test = { is_sought };

    fn stops(&self, _word: u32, block: &Block) -> bool {
        match *self {
            Sought::Name(name) => has_name(block, name),
            Sought::Id(id) => has_id(block, id),
        }
    }
}
