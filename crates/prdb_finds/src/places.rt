//! Where the chains begin in the head, and how their words stand in the blocks.
ghost use Rattle.std.specs.Prelude.{◌≡◌, ◌+◌, ◌<◌, ◌≤◌, ◌^◌};
ghost use Rattle.db_chains.specs.Changes.{IsHeadPlace};
ghost use Rattle.db_chains.specs.Free.{AreFree};
ghost use Rattle.db_chains.specs.Links.{AreLinks};
ghost use Rattle.prdb_finds.specs.Keys.{id_chain, name_chain};
ghost use Rattle.prdb_finds.specs.Places.{free_blocks, id_links, name_links, owned_links, owned_place};

use crate::keys::{id_key, name_key};
use db_blocks::block_place;
use db_chains::{FreeBlocks, Links};
use prdb_layout::{ENTRY, HEAD_LEN};

/// The length of the first image, in bytes.
pub const FIRST_LEN: u32 = 3264;

/// Where the first words of the name chains begin in the head, four bytes each.
const NAME_CHAINS_AT: u32 = 64;

/// Where the first words of the id chains begin in the head, four bytes each.
const ID_CHAINS_AT: u32 = 1088;

/// The name chains.
pub fn name_links() -> Links
    ensures is { result ≡ name_links }
    ensures links { AreLinks result }
{
    Links {
        head: HEAD_LEN,
        mark: ENTRY,
        next: 96,
        step: 1,
        kinds: 1,
    }
}

/// The id chains.
pub fn id_links() -> Links
    ensures is { result ≡ id_links }
    ensures links { AreLinks result }
{
    Links {
        head: HEAD_LEN,
        mark: ENTRY,
        next: 100,
        step: 1,
        kinds: 1,
    }
}

/// The chains of the groups that an entry owns.
pub fn owned_links() -> Links
    ensures is { result ≡ owned_links }
    ensures links { AreLinks result }
{
    Links {
        head: HEAD_LEN,
        mark: ENTRY,
        next: 104,
        step: 1,
        kinds: 1,
    }
}

/// The free blocks.
pub fn free_blocks() -> FreeBlocks
    ensures is { result ≡ free_blocks }
    ensures free { AreFree result }
{
    FreeBlocks {
        head: HEAD_LEN,
        first: 20,
        count: 16,
        mark: 0,
        next: 4,
    }
}

/// Where the chain of a name begins.
pub fn name_chain(name: &[u8]) -> u32
    ensures place { result ≡ name_chain name.now }
    ensures within { result + 4 ≤ HEAD_LEN }
{
    NAME_CHAINS_AT + 4 * name_key(name)
}

/// Where the chain of an id begins.
pub fn id_chain(id: i32) -> u32
    ensures place { result ≡ id_chain id }
    ensures within { result + 4 ≤ HEAD_LEN }
{
    ID_CHAINS_AT + 4 * id_key(id)
}

/// Where the chain of the groups begins that the entry in a block owns; the first block has the number 0.
pub fn owned_place(number: u32) -> u32
    requires { number < 2 ^ 24 }
    ensures place { result ≡ owned_place number }
    ensures apart { IsHeadPlace owned_links result }
{
    block_place(HEAD_LEN, number) + 108
}
