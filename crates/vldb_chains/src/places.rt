//! Where the chains begin in the head, and how their words stand in the blocks.
ghost use Rattle.std.specs.Prelude.{◌≡◌, ◌+◌, ◌≤◌};
ghost use Rattle.db_chains.specs.Free.{AreFree};
ghost use Rattle.db_chains.specs.Links.{AreLinks};
ghost use Rattle.vldb_chains.specs.Keys.{id_chain, name_chain};
ghost use Rattle.vldb_chains.specs.Places.{free_blocks, id_links, name_links};

use crate::keys::{id_key, name_key};
use db_chains::{FreeBlocks, Links};

/// The length of the head, in bytes.
const HEAD_LEN: u32 = 3132;

/// The first word of an entry's block.
const ENTRY: u32 = 1;

/// Where the first words of the name chains begin in the head, four bytes each.
const NAME_CHAINS_AT: u32 = 1084;

/// Where the first words of the id chains begin in the head, four bytes each.
const ID_CHAINS_AT: u32 = 2108;

/// The name chains: a word is the number of a block.
pub fn name_links() -> Links
    ensures is { result ≡ name_links }
    ensures links { AreLinks result }
{
    Links {
        head: HEAD_LEN,
        mark: ENTRY,
        next: 36,
        step: 1,
        kinds: 1,
    }
}

/// The id chains: a word is four times the number of a block, and 0 for its read-write, 1 for its read-only and 2 for its backup id.
pub fn id_links() -> Links
    ensures is { result ≡ id_links }
    ensures links { AreLinks result }
{
    Links {
        head: HEAD_LEN,
        mark: ENTRY,
        next: 40,
        step: 4,
        kinds: 3,
    }
}

/// The free blocks.
pub fn free_blocks() -> FreeBlocks
    ensures is { result ≡ free_blocks }
    ensures free { AreFree result }
{
    FreeBlocks {
        head: HEAD_LEN,
        first: 16,
        count: 12,
        mark: 0,
        next: 4,
    }
}

/// Where the chain of a name begins.
pub fn name_chain(name: &[u8]) -> u32
    ensures place { result ≡ name_chain name.now }
    ensures within { result + 4 ≤ HEAD_LEN }
{
    NAME_CHAINS_AT + 4 * name_key(name)
}

/// Where the chain of an id begins.
pub fn id_chain(id: u32) -> u32
    ensures place { result ≡ id_chain id }
    ensures within { result + 4 ≤ HEAD_LEN }
{
    ID_CHAINS_AT + 4 * id_key(id)
}
